// The side conditions of rules.
ghost use Rattle.std.specs.Prelude.{◌≡◌, IfOk};
ghost use Rattle.qs_assert.specs.Trees.{natural, infinity};
ghost use Rattle.qs_entail.specs.Answers.{Follows, FollowsAs};
ghost use Rattle.qs_entail.specs.Faults.{contradiction};
ghost use Rattle.qs_entail.specs.Learning.{TellsDifference};
ghost use Rattle.qs_entail.specs.Walking.{both_view, both_unfolded, branch_number};
ghost use Rattle.qs_entail.specs.View.{items_view, known_view};

use crate::Item;
use crate::building::{assertion_polynomial, difference};
use crate::combination::combination;
use crate::known::Known;
use crate::stop::Stop;
use crate::unfolding::{definition, unfolded};
use qs_assert::{Assertion, AssertionView, Define};
use qs_base::{Name, NoMemory};
use qs_poly::Poly;
use std::alloc::Global;

/// Two assertions.
#[derive(Drop)]
pub struct Both {
    pub left: Assertion,
    pub right: Assertion,
}

/// The two with a name replaced by the body of its first definition.
pub fn both_unfolded(
    alloc: Global,
    defines: &[Define],
    name: &Name,
    p: &AssertionView<'_>,
    q: &AssertionView<'_>,
) -> Result<Both, Stop>
    ensures { FollowsAs both_view result (both_unfolded defines.now name.now p.now q.now) }
{
    let body = definition(defines, name)?;
    let left = unfolded(alloc, name, body, p)?;
    let right = unfolded(alloc, name, body, q)?;
    Ok(Both { left, right })
}

/// The number of the part for the first branches or the second.
pub fn part_number(first: bool) -> usize
    ensures { result ≡ branch_number first }
{
    if first { 0 } else { 1 }
}

/// 0 and infinity.
pub fn ends(alloc: Global) -> Result<(Assertion, Assertion), NoMemory>
    ensures { IfOk result (λ pair. (pair.0 ≡ natural 0) × (pair.1 ≡ infinity)) }
{
    let zero = Assertion::natural(alloc, 0)?;
    let infinity = Assertion::infinity(alloc)?;
    Ok((zero, infinity))
}

/// The items are -1.
pub fn contradiction(alloc: Global, items: &[Item], known: &Known) -> Result<(), Stop>
    ensures { Follows result (contradiction (items_view items.now) (known_view known.now)) }
{
    let sum = combination(alloc, items, &known.polynomials)?;
    let minus_one = Poly::number(alloc, -1)?;
    if sum == minus_one {
        Ok(())
    } else {
        Err(Stop::Breaks)
    }
}

/// The items are the difference of both sides.
pub fn arithmetic_holds(
    alloc: Global,
    items: &[Item],
    known: &Known,
    p: &AssertionView<'_>,
    q: &AssertionView<'_>,
) -> Result<(), Stop>
    ensures { TellsDifference items.now known.now p.now q.now result }
{
    let left = assertion_polynomial(alloc, p)?;
    let right = assertion_polynomial(alloc, q)?;
    let sum = combination(alloc, items, &known.polynomials)?;
    let wanted = difference(alloc, &left, &right)?;
    if sum == wanted {
        Ok(())
    } else {
        Err(Stop::Breaks)
    }
}
