// The bound on the calls of main.
ghost use Rattle.std.specs.Prelude.{◌≡◌, IfOk};
ghost use Rattle.qs_count.specs.MainCount.{count_in};

use qs_assert::Amount;
use qs_base::NoMemory;
use qs_certify::bound_of_main;
use qs_core::CoreUnit;
use qs_triples::Proofs;
use std::alloc::Global;

/// How many calls a run of main makes at most, its own among them: 1 and the value of main's
/// precondition, where its parameter i is `arguments[i]` and each function costs 1. It is `Infinite`
/// and `Wide` as a bound on the stack is.
pub fn count_of_main(
    alloc: Global,
    unit: &CoreUnit,
    proofs: &Proofs,
    arguments: &[i64],
) -> Result<Amount, NoMemory>
    ensures { IfOk result (λ count. count ≡ count_in unit.now proofs.now arguments.now) }
{
    let ones = Vec::from_elem(alloc, 1u32, unit.functions.len())?;
    bound_of_main(alloc, unit, proofs, &ones, arguments)
}
