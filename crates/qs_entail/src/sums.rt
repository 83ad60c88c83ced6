// Polynomials of numbers and atoms, and sums under the limits.
ghost use Rattle.std.specs.Prelude.{◌≡◌, ◌≤◌, ◌^◌, negsuc, unsigned_abs, Ok, [], ◌∷◌};
ghost use Rattle.qs_poly.specs.Operations.{sum, multiple, lessened, number, single};
ghost use Rattle.qs_poly.specs.Canonical.{IsCanonical};
ghost use Rattle.qs_poly.specs.Polynomials as poly;
ghost use Rattle.qs_entail.specs.Answers.{Follows, FollowsAs};
ghost use Rattle.qs_entail.specs.Building.{limited};
ghost use Rattle.qs_entail.specs.Facts as facts;

use crate::building::atom_of;
use crate::stop::Stop;
use qs_assert::NumberType;
use qs_poly::{Atom, Poly};
use std::alloc::Global;

/// How many numbers of type int are below 0 (C11 6.2.5).
pub const INTS_BELOW_ZERO: i64 = 2_147_483_648;

/// The least number of a type (C11 6.2.5).
pub fn least(number: NumberType) -> i64
    ensures value { result ≡ facts.least number }
    ensures small { unsigned_abs result ≤ 2 ^ 56 }
{
    match number {
        NumberType::Int => -INTS_BELOW_ZERO,
        NumberType::Unsigned => 0,
        NumberType::Char => 0,
    }
}

/// The greatest number of a type (C11 6.2.5).
pub fn greatest(number: NumberType) -> i64
    ensures value { result ≡ facts.greatest_of_type number }
    ensures small { unsigned_abs result ≤ 2 ^ 56 }
{
    match number {
        NumberType::Int => INTS_BELOW_ZERO - 1,
        NumberType::Unsigned => 4_294_967_295,
        NumberType::Char => 255,
    }
}

/// A number that passes no limit.
#[tactic(auto, using(crate::proofs::SmallNumbers::small_number))]
pub fn small(alloc: Global, k: i64) -> Result<Poly, Stop>
    requires { unsigned_abs k ≤ 2 ^ 56 }
    ensures { Follows result (Ok (number k)) }
{
    Ok(Poly::number(alloc, k)?)
}

/// The sum.
pub fn sum(alloc: Global, p: &Poly, q: &Poly) -> Result<Poly, Stop>
    ensures { Follows result (limited (sum p.now q.now)) }
{
    Ok(p.add(alloc, q)?)
}

/// The negation.
pub fn negation(alloc: Global, p: &Poly) -> Result<Poly, Stop>
    ensures { Follows result (limited (multiple (negsuc 0) p.now)) }
{
    Ok(p.scale(alloc, -1)?)
}

/// The polynomial, less k times another, less c.
pub fn less(alloc: Global, p: &Poly, k: u64, q: &Poly, c: u64) -> Result<Poly, Stop>
    ensures { Follows result (limited (lessened p.now k q.now c)) }
{
    Ok(p.less(alloc, k, q, c)?)
}

/// The negation of the polynomial, less k times another, less c.
#[tactic(auto, using(crate::proofs::SmallNumbers::negated_err, crate::proofs::SmallNumbers::negated_ok))]
pub fn less_negated(alloc: Global, p: &Poly, k: u64, q: &Poly, c: u64) -> Result<Poly, Stop>
    requires canonical { IsCanonical (lessened p.now k q.now c) }
    ensures { Follows result (limited (multiple (negsuc 0) (lessened p.now k q.now c))) }
{
    let rest = less(alloc, p, k, q, c)?;
    negation(alloc, &rest)
}

/// `num p`.
pub fn num_of(alloc: Global, p: &Poly) -> Result<Poly, Stop>
    ensures { Follows result (Ok (single (poly.num p.now))) }
{
    let copy = p.copy(alloc)?;
    atom_of(alloc, &Atom::Num(copy))
}

/// The quotient of p by k.
pub fn div_of(alloc: Global, p: &Poly, k: u64) -> Result<Poly, Stop>
    ensures { Follows result (Ok (single (poly.div p.now k))) }
{
    let copy = p.copy(alloc)?;
    atom_of(alloc, &Atom::Div(copy, k))
}

/// `wrapu p`.
pub fn wrapu_of(alloc: Global, p: &Poly) -> Result<Poly, Stop>
    ensures { Follows result (Ok (single (poly.wrapu p.now))) }
{
    let copy = p.copy(alloc)?;
    atom_of(alloc, &Atom::Wrapu(copy))
}

/// `wraps p`.
pub fn wraps_of(alloc: Global, p: &Poly) -> Result<Poly, Stop>
    ensures { Follows result (Ok (single (poly.wraps p.now))) }
{
    let copy = p.copy(alloc)?;
    atom_of(alloc, &Atom::Wraps(copy))
}

/// `bits p`.
pub fn bits_of(alloc: Global, p: &Poly) -> Result<Poly, Stop>
    ensures { Follows result (Ok (single (poly.bits p.now))) }
{
    let copy = p.copy(alloc)?;
    atom_of(alloc, &Atom::Bits(copy))
}

/// A list of one polynomial. Nothing stops it but want of memory.
pub fn one(alloc: Global, first: Poly) -> Result<Vec<Poly>, Stop>
    ensures { FollowsAs (λ v. v.items) result (Ok (first ∷ [])) }
{
    let mut list = Vec::new(alloc);
    list.push(first)?;
    Ok(list)
}

/// A list of two polynomials, in this order. Nothing stops it but want of memory.
pub fn two(alloc: Global, first: Poly, second: Poly) -> Result<Vec<Poly>, Stop>
    ensures { FollowsAs (λ v. v.items) result (Ok (first ∷ second ∷ [])) }
{
    let mut list = Vec::new(alloc);
    list.push(first)?;
    list.push(second)?;
    Ok(list)
}
