// Numbers of 128 bits. None stands for a number that is wide.
ghost use Rattle.std.specs.Prelude.{◌≡◌, ℤ, pos, ◌-ℤ◌, ◌*ℤ◌};
ghost use Rattle.std.specs.Prelude.{◌-◌, reverse};
ghost use Rattle.qs_assert.specs.Values as values;
ghost use Rattle.qs_assert.specs.Stacks as stacks;

use crate::total::Total;

/// The number, or None where it is wide.
pub fn known(z: i128) -> Option<i128>
    ensures { result ≡ stacks.known z }
{
    if z == i128::MIN { None } else { Some(z) }
}

fn known_difference(x: i128, y: i128) -> Option<i128>
    ensures { result ≡ stacks.known (x -ℤ y) }
{
    known(x.checked_sub(y)?)
}

/// `a` less `b`.
pub fn difference(a: Option<i128>, b: Option<i128>) -> Option<i128>
    ensures { result ≡ stacks.on_both ◌-ℤ◌ a b }
{
    known_difference(a?, b?)
}

fn floor_quotient(z: i128, k: u64) -> i128
    ensures { result ≡ values.quotient z k }
{
    if k == 0 {
        if z < 0 { -1 } else { 0 }
    } else {
        z.div_euclid(i128::from(k))
    }
}

/// The quotient by `k`, rounded down.
pub fn quotient(a: Option<i128>, k: u64) -> Option<i128>
    ensures { result ≡ stacks.on_known (λ z. values.quotient z k) a }
{
    known(floor_quotient(a?, k))
}

fn low_word(z: i128) -> i128
    ensures { result ≡ values.wrapped_unsigned z }
{
    z.rem_euclid(0x1_0000_0000)
}

fn signed_word(z: i128) -> i128
    ensures { result ≡ values.wrapped_signed z }
{
    let low = low_word(z);
    if low < 0x8000_0000 {
        low
    } else {
        low - 0x1_0000_0000
    }
}

/// The number modulo 2^32.
pub fn wrapped_unsigned(a: Option<i128>) -> Option<i128>
    ensures { result ≡ stacks.on_known values.wrapped_unsigned a }
{
    known(low_word(a?))
}

/// The number modulo 2^32, from -2^31 to 2^31 - 1.
pub fn wrapped_signed(a: Option<i128>) -> Option<i128>
    ensures { result ≡ stacks.on_known values.wrapped_signed a }
{
    known(signed_word(a?))
}

fn bit_length(z: i128) -> u32
    ensures { result ≡ values.bit_length z }
{
    if z <= 0 { 0 } else { 128 - z.leading_zeros() }
}

/// The least k such that the number is less than 2^k.
pub fn bits(a: Option<i128>) -> Option<i128>
    ensures { result ≡ stacks.on_known (λ z. pos (values.bit_length z)) a }
{
    known(i128::from(bit_length(a?)))
}

/// The sum, the numbers being given the last first.
pub fn sum(parts: &[Option<i128>]) -> Option<i128>
    ensures { result ≡ stacks.sum_known (reverse parts.now) }
{
    let mut total = Total::ZERO;
    let mut wide = false;
    for part in parts {
        total = total.with(*part);
        wide = part.is_none() || wide;
    }
    if wide { None } else { total.known() }
}

fn known_product(x: i128, product: Option<i128>) -> Option<i128>
    ensures { stacks.AppliesToNumber (λ y. x *ℤ y) product result }
{
    if x == 0 {
        return Some(0);
    }
    known(x.checked_mul(product?)?)
}

fn with_factor(part: Option<i128>, product: Option<i128>) -> Option<i128>
    ensures { stacks.AppliesToNumber (stacks.joins ◌*ℤ◌ part) product result }
{
    match part {
        Some(x) => known_product(x, product),
        None => product,
    }
}

/// The product, the numbers being given the last first; 0 hides that a product on the way is wide.
pub fn product(parts: &[Option<i128>]) -> Option<i128>
    ensures { result ≡ stacks.product_known (reverse parts.now) }
{
    let mut product = Some(1);
    let mut wide = false;
    for part in parts {
        product = with_factor(*part, product);
        wide = part.is_none() || wide;
    }
    if wide { None } else { product }
}
