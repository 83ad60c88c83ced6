// What a walk over a unit has found.
ghost use Rattle.std.specs.Prelude.{◌≡◌, ◌<◌, IfOk, OnOk, length, map, option_map};
ghost use Rattle.qs_types.specs.Rules.{breaks_one};
ghost use Rattle.qs_types.specs.TypeOf.{type_tree};
ghost use Rattle.qs_typing_findings.specs.Findings.{is_before, nothing_found, with_fault};
ghost use Rattle.qs_typing_findings.specs.FoundOf.{fault_tree, found_tree};
ghost use Rattle.qs_typing_findings.specs.Founding.{NotesAddressed, NotesTests, Opens};
ghost use Rattle.qs_typing_findings.specs.JudgedOf.{test_tree};
ghost use Rattle.qs_typing_findings.specs.Walk.{filled};

use crate::judged::Test;
use qs_base::NoMemory;
use qs_types::{CType, Referent, Rule};
use std::alloc::Global;

/// A node, and a rule that it breaks.
#[derive(Clone, Copy)]
pub struct Fault {
    /// The number of the node.
    pub node: u32,
    /// The rule.
    pub rule: Rule,
}

/// The type of each node so far, and what its name stands for, at its number; the declarations
/// whose names are operands of `&`; the least fault.
#[derive(Drop)]
pub struct Found {
    pub types: Vec<Option<CType>>,
    pub referents: Vec<Option<Referent>>,
    pub addressed: Vec<u32>,
    pub least: Option<Fault>,
}

/// Whether the first is less: at a lesser node, or at the same node a lesser rule.
fn is_before(f: Fault, g: Fault) -> bool
    ensures { result ≡ is_before (fault_tree f) (fault_tree g) }
{
    f.node < g.node || f.node == g.node && f.rule.number() < g.rule.number()
}

impl Found {
    /// Nothing yet.
    pub fn new(alloc: Global) -> Found
        ensures { found_tree result ≡ nothing_found }
    {
        Found {
            types: Vec::new(alloc),
            referents: Vec::new(alloc),
            addressed: Vec::new(alloc),
            least: None,
        }
    }

    /// Makes a place for the next node, and tells it.
    pub fn open(&mut self, referent: Option<Referent>) -> Result<usize, NoMemory>
        ensures place { IfOk result (λ at. at ≡ length (found_tree self.old).types) }
        ensures opened { OnOk result (Opens referent self.old self.new) }
    {
        let at = self.types.len();
        self.types.push(None)?;
        self.referents.push(referent)?;
        Ok(at)
    }

    /// Gives the node at this place its type, if it has one.
    pub fn fill(&mut self, at: usize, t: Option<CType>)
        requires { at < length (found_tree self.old).types }
        ensures { found_tree self.new ≡ filled at (option_map type_tree t) (found_tree self.old) }
    {
        self.types[at] = t;
    }

    /// Notes that the name of this declaration is an operand of `&`.
    pub fn note_addressed(&mut self, node: u32) -> Result<(), NoMemory>
        ensures { OnOk result (NotesAddressed node self.old self.new) }
    {
        self.addressed.push(node)?;
        Ok(())
    }

    /// Notes a fault.
    pub fn note_fault(&mut self, f: Fault)
        ensures { found_tree self.new ≡ with_fault (fault_tree f) (found_tree self.old) }
    {
        self.least = match self.least {
            None => Some(f),
            Some(g) => Some(if is_before(f, g) { f } else { g }),
        };
    }

    /// Notes the rules that a node breaks, and tells whether there are some.
    pub fn judge(&mut self, node: u32, tests: &[Test]) -> bool
        ensures any { result ≡ breaks_one (map test_tree tests.now) }
        ensures judged { NotesTests node tests.now self.old self.new }
    {
        let mut any = false;
        for t in tests {
            if t.breaks {
                any = true;
                self.note_fault(Fault { node, rule: t.rule });
            }
        }
        any
    }
}
