// Amounts. Wide stands for a finite amount that is wide.
ghost use Rattle.std.specs.Prelude.{◌≡◌, reverse};
ghost use Rattle.qs_assert.specs.Values as values;
ghost use Rattle.qs_assert.specs.Stacks as stacks;
ghost use Rattle.qs_assert.specs.Joining.{operation, start};

use crate::Amount;

const LEAST_WIDE: u128 = 1 << 127;

/// The amount, or Wide where it is wide.
pub fn finite(n: u128) -> Amount
    ensures { result ≡ stacks.amount_known (values.finite n) }
{
    if n < LEAST_WIDE {
        Amount::Finite(n)
    } else {
        Amount::Wide
    }
}

fn natural_part(z: i128) -> u128
    ensures { result ≡ values.natural_part z }
{
    if z < 0 { 0 } else { z.cast_unsigned() }
}

/// The greater of 0 and the number.
pub fn natural(a: Option<i128>) -> Amount
    ensures { result ≡ stacks.natural_amount a }
{
    match a {
        Some(z) => finite(natural_part(z)),
        None => Amount::Wide,
    }
}

fn with_sum(n: u128, sum: Amount) -> Amount
    ensures { stacks.AppliesToAmount (values.plus (values.finite n)) sum result }
{
    match sum {
        Amount::Finite(m) => match n.checked_add(m) {
            Some(total) => finite(total),
            None => Amount::Wide,
        },
        Amount::Infinite => Amount::Infinite,
        Amount::Wide => Amount::Wide,
    }
}

fn with_greatest(n: u128, greatest: Amount) -> Amount
    ensures { stacks.AppliesToAmount (values.greater (values.finite n)) greatest result }
{
    match greatest {
        Amount::Finite(m) => finite(if n < m { m } else { n }),
        Amount::Infinite => Amount::Infinite,
        Amount::Wide => Amount::Wide,
    }
}

fn with_product(n: u128, product: Amount) -> Amount
    ensures { stacks.AppliesToAmount (values.times (values.finite n)) product result }
{
    if n == 0 {
        return Amount::Finite(0);
    }
    match product {
        Amount::Finite(m) => match n.checked_mul(m) {
            Some(total) => finite(total),
            None => Amount::Wide,
        },
        Amount::Infinite => Amount::Infinite,
        Amount::Wide => Amount::Wide,
    }
}

fn infinite_product(product: Amount) -> Amount
    ensures { stacks.AppliesToAmount (values.times values.infinite) product result }
{
    match product {
        Amount::Finite(0) => Amount::Finite(0),
        _ => Amount::Infinite,
    }
}

/// How the parts of a node are joined.
#[derive(Clone, Copy)]
pub enum Joining {
    Sum,
    Greatest,
    Product,
}

fn start(joining: Joining) -> Amount
    ensures { result ≡ stacks.amount_known (start joining) }
{
    match joining {
        Joining::Sum => Amount::Finite(0),
        Joining::Greatest => Amount::Finite(0),
        Joining::Product => Amount::Finite(1),
    }
}

fn with_finite(joining: Joining, n: u128, whole: Amount) -> Amount
    ensures { stacks.AppliesToAmount (operation joining (values.finite n)) whole result }
{
    match joining {
        Joining::Sum => with_sum(n, whole),
        Joining::Greatest => with_greatest(n, whole),
        Joining::Product => with_product(n, whole),
    }
}

fn with_infinite(joining: Joining, whole: Amount) -> Amount
    ensures { stacks.AppliesToAmount (operation joining values.infinite) whole result }
{
    match joining {
        Joining::Sum => Amount::Infinite,
        Joining::Greatest => Amount::Infinite,
        Joining::Product => infinite_product(whole),
    }
}

fn with_part(joining: Joining, part: Amount, whole: Amount) -> Amount
    ensures { stacks.AppliesToAmount (stacks.joins_amount (operation joining) part) whole result }
{
    match part {
        Amount::Finite(n) => with_finite(joining, n, whole),
        Amount::Infinite => with_infinite(joining, whole),
        Amount::Wide => whole,
    }
}

fn is_wide(amount: Amount) -> bool
    ensures { result ≡ stacks.is_wide_amount amount }
{
    match amount {
        Amount::Finite(_) => false,
        Amount::Infinite => false,
        Amount::Wide => true,
    }
}

/// The sum, the greatest or the product, the amounts being given the last first. That it is Wide on
/// the way is hidden by infinity, or in a product by 0; a part that is Wide isn't hidden.
pub fn joined(joining: Joining, parts: &[Amount]) -> Amount
    ensures { result ≡ stacks.joined_known (operation joining) (start joining) (reverse parts.now) }
{
    let mut whole = start(joining);
    let mut wide = false;
    for part in parts {
        whole = with_part(joining, *part, whole);
        wide = is_wide(*part) || wide;
    }
    if wide { Amount::Wide } else { whole }
}

/// The first amount where the condition holds, else the second.
pub fn chosen(test: Option<bool>, first: Amount, second: Amount) -> Amount
    ensures { result ≡ stacks.chosen test first second }
{
    match test {
        Some(holds) => { if holds { first } else { second } }
        None => Amount::Wide,
    }
}
