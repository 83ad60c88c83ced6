// What an assertion amounts to at given arguments.
ghost use Rattle.std.specs.Prelude.{◌≡◌, [], IfOk};
ghost use Rattle.qs_assert.specs.Bounds.{amount_at, bound_at};
ghost use Rattle.qs_assert.specs.Tables.{reckoned, tabled, AddsDefine};

use crate::amounts::Joining;
use crate::evaluation::{cost, evaluate};
use crate::{Amount, Assertion, Define, amounts};
use indexmap::IndexMap;
use qs_base::{FnId, Name, NoMemory};
use std::alloc::Global;

fn reckon(
    alloc: Global,
    a: &Assertion,
    args: &[i64],
    costs: &[u32],
    known: &IndexMap<Name, Amount>,
) -> Result<Amount, NoMemory>
    ensures { IfOk result (λ amount. amount ≡ reckoned args.now costs.now known.now.entries a.now) }
{
    evaluate(alloc, a.nodes(), args, costs, known)
}

/// Adds the value of a definition, unless its name has one.
#[tactic(auto, using(crate::proofs::TableLaws::amount_kept))]
fn add(
    alloc: Global,
    define: &Define,
    args: &[i64],
    costs: &[u32],
    known: &mut IndexMap<Name, Amount>,
) -> Result<(), NoMemory>
    ensures { AddsDefine args.now costs.now define.now known.old.entries known.new.entries result }
{
    if known.get(&define.name).is_some() {
        return Ok(());
    }
    let amount = reckon(alloc, &define.body, args, costs, known)?;
    known.insert(define.name.copy(alloc)?, amount)?;
    Ok(())
}

/// The values of the definitions by their names.
fn table(
    alloc: Global,
    defines: &[Define],
    args: &[i64],
    costs: &[u32],
) -> Result<IndexMap<Name, Amount>, NoMemory>
    ensures { IfOk result (λ known. known.entries ≡ tabled args.now costs.now defines.now []) }
{
    let mut known = IndexMap::new(alloc);
    for define in defines {
        add(alloc, define, args, costs, &mut known)?;
    }
    Ok(known)
}

/// The value of `a` where parameter i is `args[i]` and function f costs `costs[f]`; every other
/// variable is unset and counts as 0. A name has the value of its first definition, in which a name
/// that isn't defined earlier is infinite, as is a name without a definition. The answer is `Wide`
/// exactly where a part that is evaluated is finite and outside -(2^127 - 1) to 2^127 - 1, and it
/// comes before `Infinite`. In a conditional only the chosen branch is evaluated, in a guard the
/// assertion only where the condition holds; all else is. The value of each definition is computed
/// once.
pub fn value_at(
    alloc: Global,
    a: &Assertion,
    defines: &[Define],
    args: &[i64],
    costs: &[u32],
) -> Result<Amount, NoMemory>
    ensures { IfOk result (λ amount. amount ≡ amount_at a.now defines.now args.now costs.now) }
{
    let known = table(alloc, defines, args, costs)?;
    let amount = reckon(alloc, a, args, costs, &known)?;
    Ok(amount)
}

/// The value of `pre`, as `value_at` has it, and the cost of `main`; `Wide` also where their sum
/// is.
pub fn bound_of(
    alloc: Global,
    pre: &Assertion,
    defines: &[Define],
    args: &[i64],
    costs: &[u32],
    main: FnId,
) -> Result<Amount, NoMemory>
    ensures { IfOk result (λ b. b ≡ bound_at pre.now defines.now args.now costs.now main.0) }
{
    let amount = value_at(alloc, pre, defines, args, costs)?;
    let cost = amounts::finite(u128::from(cost(costs, main.0)));
    Ok(amounts::joined(Joining::Sum, &[amount, cost]))
}
