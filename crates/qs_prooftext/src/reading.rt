// The reading of a proof file.
ghost use Rattle.std.specs.Prelude.{◌≡◌, ◌<◌, ◌^◌, IfOk, length};
ghost use Rattle.qs_core.specs.Trees.{CoreUnitTree};
ghost use Rattle.qs_core.specs.UnitTrees.{unit_tree};
ghost use Rattle.qs_prooftext_meaning.specs.Reading as spec;
ghost use Rattle.qs_prooftext_meaning.specs.Reading.{Reading, Refuses};
ghost use Rattle.qs_prooftext_meaning.specs.Writable.{IsOfUnit, IsWritable};
ghost use Rattle.qs_sexpr.specs.Results.{IsRead};
ghost use Rattle.qs_triples.specs.TreeOf.{proofs_tree};

use crate::listed::listed_functions;
use crate::tops::{File, read_tops};
use qs_callgraph::open;
use qs_core::CoreUnit;
use qs_prooftext_meaning::TextFault;
use qs_sexpr::{Node, SexprFault};
use qs_triples::Proofs;
use std::alloc::Global;

fn told(fault: SexprFault) -> TextFault
    ensures { result ≡ spec.told fault }
{
    match fault {
        SexprFault::NoMemory => TextFault::NoMemory,
        SexprFault::BadByte(at) => TextFault::BadByte(at),
        SexprFault::Unbalanced(at) => TextFault::Unbalanced(at),
        SexprFault::BadNumber(at) => TextFault::BadNumber(at),
        SexprFault::TooDeep(at) => TextFault::TooDeep(at),
    }
}

#[tactic(auto, using(crate::proofs::ReadLaws::list_fault))]
fn lists(alloc: Global, text: &[u8]) -> Result<Vec<Node>, TextFault>
    requires { length text.now < 2 ^ 31 }
    ensures nodes { IfOk result (λ nodes. IsRead text.now nodes.items) }
    ensures fault { (u : CoreUnitTree) → Refuses u text.now result }
{
    match qs_sexpr::read(alloc, text) {
        Ok(nodes) => Ok(nodes),
        Err(fault) => Err(told(fault)),
    }
}

/// The proofs that the lists of a text are.
fn read_lists(
    alloc: Global,
    text: &[u8],
    unit: &CoreUnit,
    nodes: &[Node],
) -> Result<Proofs, TextFault>
    requires { IsRead text.now nodes.now }
    ensures reads { IfOk result (λ p. Reading (unit_tree unit.now) text.now (proofs_tree p)) }
    ensures fault { Refuses (unit_tree unit.now) text.now result }
{
    let flags = listed_functions(alloc, text, unit, nodes)?;
    let is_open = open(alloc, unit, &flags)?;
    let file = File {
        text,
        unit,
        is_open: &is_open,
    };
    read_tops(alloc, file, nodes)
}

/// The proofs that a text is, which can be written, or its first fault. Faults of lists and atoms
/// anywhere in the text come before those of what they mean.
#[tactic(auto, using(crate::proofs::ReadWritable::reads_well))]
pub fn read(alloc: Global, text: &[u8], unit: &CoreUnit) -> Result<Proofs, TextFault>
    requires limit { length text.now < 2 ^ 31 }
    ensures reads { IfOk result (λ p. Reading (unit_tree unit.now) text.now (proofs_tree p)) }
    ensures writable { IfOk result (λ p. IsWritable (unit_tree unit.now) (proofs_tree p)) }
    ensures of_unit { IfOk result (λ p. IsOfUnit (unit_tree unit.now) (proofs_tree p)) }
    ensures fault { Refuses (unit_tree unit.now) text.now result }
{
    let nodes = lists(alloc, text)?;
    read_lists(alloc, text, unit, &nodes)
}
