// What must be free before a switch, by what must be free before its parts.
ghost use Rattle.std.specs.Prelude.{[], ◌∷◌, ◌≡◌, ◌++◌, IfOk, OnOk};
ghost use Rattle.qs_assert.specs.Trees.{greatest};
ghost use Rattle.qs_core.specs.Statements as core;
ghost use Rattle.qs_core.specs.TreeOf.{core_expr};
ghost use Rattle.qs_triples.specs.Rules as rules;
ghost use Rattle.qs_triples.specs.Switches.{at_cases_view, before_view, case_need, case_nodes};
ghost use Rattle.qs_triples.specs.Switches.{label_needs};

use crate::terms::expression_term;
use qs_assert::{Assertion, AssertionNode, Cond, Node, Room, Term, put_nodes};
use qs_base::NoMemory;
use qs_core::{CoreExpr, CoreLabel, default_part, literal_value, type_of};
use qs_memory::Scalar;
use std::alloc::Global;

/// What must be free before the parts of a switch.
#[derive(Clone, Copy)]
pub struct Before<'a> {
    /// behind the last part
    pub next: &'a Assertion,
    /// before each part, from the last to the first
    pub parts: &'a [Assertion],
}

/// What must be free before the part with this number, or behind the last one.
#[tactic(auto, using(crate::proofs::LabelLaws::part_there, crate::proofs::LabelLaws::no_part_there))]
pub fn before_part<'a>(b: Before<'a>, part: usize) -> &'a Assertion
    ensures { result.now ≡ before_view b.entry part }
{
    let count = b.parts.len();
    if part < count {
        &b.parts[count - 1 - part]
    } else {
        b.next
    }
}

/// Puts an assertion at the end of a list.
pub fn put(list: &mut Vec<Assertion>, a: Assertion) -> Result<(), NoMemory>
    ensures { OnOk result (list.new.items ≡ list.old.items ++ a ∷ []) }
{
    list.push(a)?;
    Ok(())
}

fn at_default<'a>(b: Before<'a>, labels: &[CoreLabel]) -> &'a Assertion
    ensures { result.now ≡ rules.before_chosen b.entry.next.now (before_view b.entry) (core.default_part labels.now) }
{
    match default_part(labels) {
        None => b.next,
        Some(part) => before_part(b, part as usize),
    }
}

// Whether `d` is needed at a label, if it is a case.
fn needs(d: &Assertion, b: Before<'_>, label: CoreLabel) -> bool
    ensures { result ≡ label_needs d.now (before_view b.entry) label }
{
    match label {
        CoreLabel::Case { part, .. } => before_part(b, part as usize).same(d),
        CoreLabel::Default { .. } => true,
    }
}

// Whether all cases need the same as `d`.
#[tactic(auto, using(crate::proofs::LabelLaws::all_need_at))]
fn all_need(d: &Assertion, b: Before<'_>, labels: &[CoreLabel]) -> bool
    ensures { result ≡ rules.all_need d.now (before_view b.entry) labels.now }
{
    for label in labels {
        if !needs(d, b, *label) {
            return false;
        }
    }
    true
}

// ---- by the term of the operand

fn put_case(
    alloc: Global,
    nodes: &mut Vec<Node>,
    b: Before<'_>,
    s: Scalar,
    t: &Term,
    label: CoreLabel,
) -> Result<(), NoMemory>
    ensures { OnOk result (nodes.new.items ≡ nodes.old.items ++ case_nodes (before_view b.entry) s t.now label) }
{
    match label {
        CoreLabel::Case { value, part } => {
            let number = Term::number(alloc, literal_value(s, value))?;
            let condition = Cond::eq(alloc, t, &number)?;
            nodes.push(Node::Assertion(AssertionNode::If))?;
            put_nodes(alloc, nodes, condition.nodes())?;
            put_nodes(alloc, nodes, before_part(b, part as usize).nodes())
        }
        CoreLabel::Default { .. } => Ok(()),
    }
}

#[tactic(auto, using(crate::proofs::LabelLaws::values_at))]
fn by_values(
    alloc: Global,
    d: &Assertion,
    b: Before<'_>,
    s: Scalar,
    t: &Term,
    labels: &[CoreLabel],
) -> Result<Assertion, NoMemory>
    ensures { IfOk result (λ a. a ≡ rules.by_values d.now (before_view b.entry) s t.now labels.now) }
{
    let mut nodes = Vec::new(alloc);
    for label in labels {
        put_case(alloc, &mut nodes, b, s, t, *label)?;
    }
    put_nodes(alloc, &mut nodes, d.nodes())?;
    Ok(Assertion::from_nodes(nodes))
}

// ---- without one

fn put_copy(alloc: Global, list: &mut Vec<Assertion>, a: &Assertion) -> Result<(), NoMemory>
    ensures { OnOk result (list.new.items ≡ list.old.items ++ a.now ∷ []) }
{
    put(list, a.copy(alloc)?)
}

// What is needed at a label, if it is a case.
fn put_need(
    alloc: Global,
    room: &mut Room,
    list: &mut Vec<Assertion>,
    b: Before<'_>,
    label: CoreLabel,
) -> Result<(), NoMemory>
    ensures { OnOk result (list.new.items ≡ list.old.items ++ case_need (before_view b.entry) label) }
{
    match label {
        CoreLabel::Case { part, .. } => {
            let need = before_part(b, part as usize);
            room.take(need.nodes().len())?;
            put_copy(alloc, list, need)
        }
        CoreLabel::Default { .. } => Ok(()),
    }
}

// What each case needs, and `d` behind them.
#[tactic(auto, using(crate::proofs::LabelLaws::cases_at))]
fn at_cases(
    alloc: Global,
    room: &mut Room,
    d: &Assertion,
    b: Before<'_>,
    labels: &[CoreLabel],
) -> Result<Vec<Assertion>, NoMemory>
    ensures { IfOk result (λ list. list.items ≡ at_cases_view d.now (before_view b.entry) labels.now) }
{
    let mut list = Vec::new(alloc);
    for label in labels {
        put_need(alloc, room, &mut list, b, *label)?;
    }
    put_copy(alloc, &mut list, d)?;
    Ok(list)
}

// ---- the rule

#[tactic(auto, using(crate::proofs::LabelLaws::cases_listed))]
fn by_term(
    alloc: Global,
    room: &mut Room,
    d: &Assertion,
    b: Before<'_>,
    s: Scalar,
    t: Option<Term>,
    labels: &[CoreLabel],
) -> Result<Assertion, NoMemory>
    ensures { IfOk result (λ a. a ≡ rules.by_term d.now (before_view b.entry) s t labels.now) }
{
    match t {
        Some(t) => by_values(alloc, d, b, s, &t, labels),
        None => Assertion::greatest(alloc, &at_cases(alloc, room, d, b, labels)?),
    }
}

/// What a switch needs, by what its parts need.
pub fn by_labels(
    alloc: Global,
    room: &mut Room,
    b: Before<'_>,
    e: &CoreExpr,
    labels: &[CoreLabel],
) -> Result<Assertion, NoMemory>
    ensures { IfOk result (λ a. a ≡ rules.switched b.entry.next.now (before_view b.entry) (core_expr e.now) labels.now) }
{
    let d = at_default(b, labels);
    if all_need(d, b, labels) {
        return d.copy(alloc);
    }
    let t = expression_term(alloc, e)?;
    by_term(alloc, room, d, b, type_of(e), t, labels)
}
