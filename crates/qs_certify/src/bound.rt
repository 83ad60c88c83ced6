// The bound of a function, and that of main.
ghost use Rattle.std.specs.Prelude.{◌≡◌, IfOk};
ghost use Rattle.qs_triples.specs.Filled.{pre_in};
ghost use Rattle.qs_triples.specs.Views.{entry_in};
ghost use Rattle.qs_certify.specs.Bound.{bound_in, function_bound_in};

use qs_assert::{Amount, Assertion, bound_of};
use qs_base::{FnId, NoMemory};
use qs_core::CoreUnit;
use qs_triples::{FunctionProof, Proofs};
use std::alloc::Global;

// The precondition of a function. Without an entry it needs more than there is.
fn needed_by(alloc: Global, entries: &[FunctionProof], f: FnId) -> Result<Assertion, NoMemory>
    ensures { IfOk result (λ pre. pre ≡ pre_in (entry_in entries.now f.0)) }
{
    for e in entries {
        if e.function.0 == f.0 {
            return e.spec.pre.copy(alloc);
        }
    }
    Assertion::infinity(alloc)
}

/// What a run of a function needs of the stack at most, in bytes: what the function costs and the
/// value of its precondition, where its parameter i is `arguments[i]` and function f costs
/// `costs[f]`. It is `Infinite` where the function has no entry, and `Wide` where a part that is
/// evaluated is finite and outside -(2^127 - 1) to 2^127 - 1.
pub fn bound_of_function(
    alloc: Global,
    function: FnId,
    proofs: &Proofs,
    costs: &[u32],
    arguments: &[i64],
) -> Result<Amount, NoMemory>
    ensures { IfOk result (λ bound. bound ≡ function_bound_in function proofs.now costs.now arguments.now) }
{
    let pre = needed_by(alloc, &proofs.functions, function)?;
    bound_of(alloc, &pre, &proofs.defines, arguments, costs, function)
}

/// What a run of main needs of the stack at most, as `bound_of_function` says it.
pub fn bound_of_main(
    alloc: Global,
    unit: &CoreUnit,
    proofs: &Proofs,
    costs: &[u32],
    arguments: &[i64],
) -> Result<Amount, NoMemory>
    ensures { IfOk result (λ bound. bound ≡ bound_in unit.now proofs.now costs.now arguments.now) }
{
    bound_of_function(alloc, unit.main, proofs, costs, arguments)
}
