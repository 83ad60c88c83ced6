// Which functions need an entry and have none.
ghost use Rattle.std.specs.Prelude.{◌≡◌};
ghost use Rattle.qs_core.specs.CallGraph as calls;
ghost use Rattle.qs_core.specs.TreeOf.{core_stmt};
ghost use Rattle.qs_count.specs.Covered.{TellsMissing};
ghost use Rattle.qs_count.specs.Missing as missing;
ghost use Rattle.qs_count.specs.Missing.{called_by_entries, callees_below, callees_in, number_of};
ghost use Rattle.qs_count.specs.Missing.{with_all, with_one};

use qs_base::FnId;
use qs_calls::Callee;
use qs_core::{CoreStmt, CoreUnit};
use qs_triples::{FunctionProof, Proofs, entry_in, function_of};

fn earlier(found: Option<FnId>, f: FnId) -> Option<FnId>
    ensures { number_of result ≡ missing.earlier (number_of found) f.0 }
{
    match found {
        None => Some(f),
        Some(g) => Some(FnId(g.0.min(f.0))),
    }
}

// What is found, or this function where it has no entry and is earlier.
fn with_function(proofs: &Proofs, found: Option<FnId>, f: FnId) -> Option<FnId>
    ensures { number_of result ≡ with_one proofs.now found f.0 }
{
    match entry_in(&proofs.functions, f) {
        Some(_) => found,
        None => earlier(found, f),
    }
}

fn with_callee(proofs: &Proofs, found: Option<FnId>, callee: Callee) -> Option<FnId>
    ensures { number_of result ≡ with_all proofs.now found (calls.callee callee) }
{
    match callee {
        Callee::Function(g) => with_function(proofs, found, g),
        Callee::PutChar => found,
        Callee::GetChar => found,
    }
}

#[cycle(with_callees)]
fn with_callees(proofs: &Proofs, found: Option<FnId>, s: &CoreStmt) -> Option<FnId>
    ensures { number_of result ≡ with_all proofs.now found (calls.callees (core_stmt s.now)) }
{
    match s {
        CoreStmt::Skip => found,
        CoreStmt::Seq(ss) => with_all_callees(proofs, found, ss),
        CoreStmt::Assign(_, _) => found,
        CoreStmt::Store(_, _, _) => found,
        CoreStmt::Copy { .. } => found,
        CoreStmt::Fill(_, _) => found,
        CoreStmt::Call(_, callee, _) => with_callee(proofs, found, *callee),
        CoreStmt::If(_, first, second) => {
            let so_far = with_callees(proofs, found, first);
            with_callees(proofs, so_far, second)
        }
        CoreStmt::Loop(body, step) => {
            let so_far = with_callees(proofs, found, body);
            with_callees(proofs, so_far, step)
        }
        CoreStmt::Switch(_, _, parts) => with_all_callees(proofs, found, parts),
        CoreStmt::Break => found,
        CoreStmt::Continue => found,
        CoreStmt::Return(_) => found,
    }
}

#[cycle(with_callees)]
fn with_all_callees(proofs: &Proofs, found: Option<FnId>, ss: &[CoreStmt]) -> Option<FnId>
    ensures { number_of result ≡ with_all proofs.now found (callees_below ss.now) }
{
    let mut first = found;
    for s in ss {
        first = with_callees(proofs, first, s);
    }
    first
}

// The same of those that the body of a function calls.
fn with_body(unit: &CoreUnit, proofs: &Proofs, found: Option<FnId>, f: FnId) -> Option<FnId>
    ensures { number_of result ≡ with_all proofs.now found (callees_in unit.now f.0) }
{
    match function_of(unit, f) {
        None => found,
        Some(function) => with_all_callees(proofs, found, &function.body),
    }
}

fn with_entries(
    unit: &CoreUnit,
    proofs: &Proofs,
    found: Option<FnId>,
    entries: &[FunctionProof],
) -> Option<FnId>
    ensures { number_of result ≡ with_all proofs.now found (called_by_entries unit.now entries.now) }
{
    let mut first = found;
    for e in entries {
        first = with_body(unit, proofs, first, e.function);
    }
    first
}

/// The first function in order of definition that needs an entry and has none, if there is one.
/// Main needs one, and each function that the body of an entry calls; `putchar` and `getchar` need
/// none. It takes no memory.
pub fn covered(unit: &CoreUnit, proofs: &Proofs) -> Option<FnId>
    ensures { TellsMissing unit.now proofs.now result }
{
    let first = with_function(proofs, None, unit.main);
    with_entries(unit, proofs, first, &proofs.functions)
}
