// The derivation of an open function: before each statement its name is enough.
ghost use Rattle.std.specs.Prelude.{◌≡◌, IfOk, pos};
ghost use Rattle.qs_entail.specs.Certificates.{pick, same};
ghost use Rattle.qs_entail.specs.View.{cert_tree};
ghost use Rattle.qs_triples.specs.TreeOf.{derivation_tree, derivation_trees};
ghost use Rattle.qs_callgraph.specs.CallLists.{numbers};
ghost use Rattle.qs_analyse.specs.Written as spec;
ghost use Rattle.qs_analyse.specs.Written.{for_needs, place_of, written_stmt, written_stmts};

use qs_assert::Assertion;
use qs_base::{FnId, Name, NoMemory};
use qs_calls::Callee;
use qs_core::CoreStmt;
use qs_entail::Certificate;
use qs_triples::Derivation;
use std::alloc::Global;

/// An open function: its name, and those that it calls.
#[derive(Clone, Copy)]
pub struct Needs<'a> {
    /// its name
    pub name: &'a Name,
    /// those that it calls
    pub callees: &'a [FnId],
}

fn place_of(callees: &[FnId], g: FnId) -> usize
    ensures { result ≡ place_of (numbers callees.now) g.0 }
{
    for i in 0..callees.len() {
        if callees[i].0 == g.0 {
            return i;
        }
    }
    callees.len()
}

// No memory holds so many callees that their number isn't an i64.
fn member_number(i: usize) -> Result<i64, NoMemory>
    ensures { IfOk result (λ n. n ≡ pos i) }
{
    i64::try_from(i).map_err(|_wide| NoMemory)
}

fn picked(alloc: Global, i: i64) -> Result<Certificate, NoMemory>
    ensures { IfOk result (λ c. cert_tree c ≡ pick i same) }
{
    let same = Box::new(alloc, Certificate::Same)?;
    Ok(Certificate::Pick(i, same))
}

// Why what the greatest of the calls needs is enough for a call of g.
fn pick_certificate(alloc: Global, callees: &[FnId], g: FnId) -> Result<Certificate, NoMemory>
    ensures { IfOk result (λ c. cert_tree c ≡ spec.pick_certificate (numbers callees.now) g.0) }
{
    if callees.len() < 2 {
        return Ok(Certificate::Same);
    }
    let number = member_number(place_of(callees, g))?;
    picked(alloc, number)
}

// Why the name is enough for what comes behind a call of g and for the call.
fn call_certificate(alloc: Global, f: Needs<'_>, g: FnId) -> Result<Certificate, NoMemory>
    ensures { IfOk result (λ c. cert_tree c ≡ for_needs f.entry spec.call_certificate g.0) }
{
    let pick = Box::new(alloc, pick_certificate(alloc, f.callees, g)?)?;
    let unfold = Certificate::ByDefinition(f.name.copy(alloc)?, pick);
    let mut parts = Vec::new(alloc);
    parts.push(Certificate::Same)?;
    parts.push(unfold)?;
    Ok(Certificate::All(parts))
}

fn written_call(alloc: Global, f: Needs<'_>, callee: Callee) -> Result<Derivation, NoMemory>
    ensures { IfOk result (λ d. derivation_tree d ≡ for_needs f.entry spec.written_call callee) }
{
    let Callee::Function(g) = callee else {
        return Ok(Derivation::Leaf);
    };
    let needed = Assertion::named(alloc, f.name)?;
    let certificate = call_certificate(alloc, f, g)?;
    let balanced = Box::new(alloc, Derivation::BalancedCall)?;
    Ok(Derivation::Consequence(needed, certificate, balanced))
}

/// The derivation of a statement.
#[cycle(written)]
pub fn written(alloc: Global, f: Needs<'_>, s: &CoreStmt) -> Result<Derivation, NoMemory>
    ensures { IfOk result (λ d. derivation_tree d ≡ written_stmt f.entry s.now) }
{
    match s {
        CoreStmt::Skip => Ok(Derivation::Leaf),
        CoreStmt::Seq(ss) => Ok(Derivation::Sequence(all_written(alloc, f, ss)?)),
        CoreStmt::Assign(_, _) => Ok(Derivation::Leaf),
        CoreStmt::Store(_, _, _) => Ok(Derivation::Leaf),
        CoreStmt::Copy { .. } => Ok(Derivation::Leaf),
        CoreStmt::Fill(_, _) => Ok(Derivation::Leaf),
        CoreStmt::Call(_, callee, _) => written_call(alloc, f, *callee),
        CoreStmt::If(_, first, second) => {
            let first = Box::new(alloc, written(alloc, f, first)?)?;
            let second = Box::new(alloc, written(alloc, f, second)?)?;
            Ok(Derivation::Conditional(first, second))
        }
        CoreStmt::Loop(body, step) => {
            let needed = Assertion::named(alloc, f.name)?;
            let body = Box::new(alloc, written(alloc, f, body)?)?;
            let step = Box::new(alloc, written(alloc, f, step)?)?;
            Ok(Derivation::Loop(needed, Certificate::Same, body, step))
        }
        CoreStmt::Switch(_, _, parts) => Ok(Derivation::Switch(all_written(alloc, f, parts)?)),
        CoreStmt::Break => Ok(Derivation::Leaf),
        CoreStmt::Continue => Ok(Derivation::Leaf),
        CoreStmt::Return(_) => Ok(Derivation::Leaf),
    }
}

/// The derivations of the parts of a sequence, or of a switch.
#[cycle(written)]
pub fn all_written(
    alloc: Global,
    f: Needs<'_>,
    ss: &[CoreStmt],
) -> Result<Vec<Derivation>, NoMemory>
    ensures { IfOk result (λ ds. derivation_trees ds.items ≡ written_stmts f.entry ss.now) }
{
    let mut ds = Vec::new(alloc);
    for s in ss {
        ds.push(written(alloc, f, s)?)?;
    }
    Ok(ds)
}
