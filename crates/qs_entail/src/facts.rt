// The polynomials that facts add, where their conditions without polynomials hold.
ghost use Rattle.qs_entail.specs.Answers.{FindsAs, FollowsAs, ListFollows};
ghost use Rattle.qs_entail.specs.Certificates.{range, cost_range, apart, num_is, num_bounds};
ghost use Rattle.qs_entail.specs.Certificates.{wrapu_is, wraps_is, wrapu_bounds, wraps_bounds};
ghost use Rattle.qs_entail.specs.Certificates.{quotient_bounds, bits_bound, bits_half, bits_rise};
ghost use Rattle.qs_entail.specs.Facts as facts;
ghost use Rattle.qs_entail.specs.Facts.{both_differences};
ghost use Rattle.qs_entail.specs.Learning.{Adds, AddsAlways, AddsApart};
ghost use Rattle.qs_entail.specs.View.{fact_tree, items_view};

use crate::Item;
use crate::building::{atom_of, difference, term_polynomial};
use crate::certificate::Fact;
use crate::combination::{combination, two_combinations};
use crate::known::Known;
use crate::parts::{Sides, different_sides};
use crate::stop::Stop;
use crate::sums::{
    INTS_BELOW_ZERO, bits_of, div_of, greatest, least, less, less_negated, negation, num_of, one,
    small, sum, two, wraps_of, wrapu_of,
};
use qs_assert::{Cond, NumberType, Term, Var};
use qs_base::FnId;
use qs_poly::{Atom, Poly};
use std::alloc::Global;

/// The polynomials p less q, and q less p.
fn both_ways(alloc: Global, p: &Poly, q: &Poly) -> Result<Vec<Poly>, Stop>
    ensures { ListFollows result (both_differences p.now q.now) }
{
    let above = difference(alloc, p, q)?;
    let below = difference(alloc, q, p)?;
    two(alloc, above, below)
}

fn range(alloc: Global, x: Var) -> Result<Vec<Poly>, Stop>
    ensures { AddsAlways (range x) result }
{
    let variable = atom_of(alloc, &Atom::Variable(x))?;
    let first = small(alloc, least(x.number))?;
    let last = small(alloc, greatest(x.number))?;
    let above = difference(alloc, &variable, &first)?;
    let below = difference(alloc, &last, &variable)?;
    two(alloc, above, below)
}

fn cost_range(alloc: Global, f: FnId) -> Result<Vec<Poly>, Stop>
    ensures { AddsAlways (cost_range f.0) result }
{
    let cost = atom_of(alloc, &Atom::Cost(f))?;
    one(alloc, cost)
}

/// The condition of this number.
#[tactic(auto, using(crate::proofs::MemberLaws::condition_in, crate::proofs::MemberLaws::condition_out))]
pub fn condition_at(conditions: &[Cond], i: i64) -> Option<&Cond>
    ensures { FindsAs (λ c. c.now) result (facts.condition conditions.now i) }
{
    if i < 0 {
        return None;
    }
    let i = i as usize;
    if i < conditions.len() {
        Some(&conditions[i])
    } else {
        None
    }
}

/// The condition of this number; it breaks where there is none.
fn condition(conditions: &[Cond], i: i64) -> Result<&Cond, Stop>
    ensures { FollowsAs (λ c. c.now) result (facts.condition conditions.now i) }
{
    match condition_at(conditions, i) {
        Some(c) => Ok(c),
        None => Err(Stop::Breaks),
    }
}

/// The items less 1, where they are a difference of the sides.
fn apart_by(alloc: Global, sides: &Sides, items: &[Item], known: &Known) -> Result<Vec<Poly>, Stop>
    ensures { AddsApart sides.now items.now known.now result }
{
    let left = term_polynomial(alloc, &sides.left)?;
    let right = term_polynomial(alloc, &sides.right)?;
    let total = combination(alloc, items, &known.polynomials)?;
    let more = difference(alloc, &left, &right)?;
    let less = difference(alloc, &right, &left)?;
    let minus_one = small(alloc, -1)?;
    let rest = sum(alloc, &total, &minus_one)?;
    if total == more || total == less {
        one(alloc, rest)
    } else {
        Err(Stop::Breaks)
    }
}

fn apart(alloc: Global, i: i64, items: &[Item], known: &Known) -> Result<Vec<Poly>, Stop>
    ensures { Adds (apart i (items_view items.now)) known.now result }
{
    let condition = condition(&known.conditions, i)?;
    let sides = different_sides(alloc, condition)?;
    apart_by(alloc, &sides, items, known)
}

fn num_is(alloc: Global, t: &Term, items: &[Item], known: &Known) -> Result<Vec<Poly>, Stop>
    ensures { Adds (num_is t.now (items_view items.now)) known.now result }
{
    let p = term_polynomial(alloc, t)?;
    let total = combination(alloc, items, &known.polynomials)?;
    let num = num_of(alloc, &p)?;
    let pair = both_ways(alloc, &num, &p)?;
    if total == p {
        Ok(pair)
    } else {
        Err(Stop::Breaks)
    }
}

fn num_bounds(alloc: Global, t: &Term) -> Result<Vec<Poly>, Stop>
    ensures { AddsAlways (num_bounds t.now) result }
{
    let p = term_polynomial(alloc, t)?;
    let num = num_of(alloc, &p)?;
    let above = difference(alloc, &num, &p)?;
    two(alloc, num, above)
}

fn wrapu_is(
    alloc: Global,
    t: &Term,
    v: &[Item],
    w: &[Item],
    known: &Known,
) -> Result<Vec<Poly>, Stop>
    ensures { Adds (wrapu_is t.now (items_view v.now) (items_view w.now)) known.now result }
{
    let p = term_polynomial(alloc, t)?;
    let last = small(alloc, greatest(NumberType::Unsigned))?;
    let room = difference(alloc, &last, &p)?;
    let totals = two_combinations(alloc, v, w, &known.polynomials)?;
    let wrapped = wrapu_of(alloc, &p)?;
    let pair = both_ways(alloc, &wrapped, &p)?;
    if totals.first == p && totals.second == room {
        Ok(pair)
    } else {
        Err(Stop::Breaks)
    }
}

fn wraps_is(
    alloc: Global,
    t: &Term,
    v: &[Item],
    w: &[Item],
    known: &Known,
) -> Result<Vec<Poly>, Stop>
    ensures { Adds (wraps_is t.now (items_view v.now) (items_view w.now)) known.now result }
{
    let p = term_polynomial(alloc, t)?;
    let offset = small(alloc, INTS_BELOW_ZERO)?;
    let above = sum(alloc, &p, &offset)?;
    let last = small(alloc, greatest(NumberType::Int))?;
    let room = difference(alloc, &last, &p)?;
    let totals = two_combinations(alloc, v, w, &known.polynomials)?;
    let wrapped = wraps_of(alloc, &p)?;
    let pair = both_ways(alloc, &wrapped, &p)?;
    if totals.first == above && totals.second == room {
        Ok(pair)
    } else {
        Err(Stop::Breaks)
    }
}

fn wrapu_bounds(alloc: Global, t: &Term) -> Result<Vec<Poly>, Stop>
    ensures { AddsAlways (wrapu_bounds t.now) result }
{
    let p = term_polynomial(alloc, t)?;
    let wrapped = wrapu_of(alloc, &p)?;
    let last = small(alloc, greatest(NumberType::Unsigned))?;
    let room = difference(alloc, &last, &wrapped)?;
    two(alloc, wrapped, room)
}

fn wraps_bounds(alloc: Global, t: &Term) -> Result<Vec<Poly>, Stop>
    ensures { AddsAlways (wraps_bounds t.now) result }
{
    let p = term_polynomial(alloc, t)?;
    let wrapped = wraps_of(alloc, &p)?;
    let offset = small(alloc, INTS_BELOW_ZERO)?;
    let above = sum(alloc, &wrapped, &offset)?;
    let last = small(alloc, greatest(NumberType::Int))?;
    let room = difference(alloc, &last, &wrapped)?;
    two(alloc, above, room)
}

#[tactic(auto, using(qs_poly::proofs::Coefficients::lessened_canonical))]
fn quotient_bounds(alloc: Global, t: &Term, n: u64) -> Result<Vec<Poly>, Stop>
    ensures { AddsAlways (quotient_bounds t.now n) result }
{
    let p = term_polynomial(alloc, t)?;
    let quotient = div_of(alloc, &p, n)?;
    let rest = less(alloc, &p, n, &quotient, 0)?;
    let room = less_negated(alloc, &p, n, &quotient, n.saturating_sub(1))?;
    two(alloc, rest, room)
}

fn bits_bound(alloc: Global, t: &Term) -> Result<Vec<Poly>, Stop>
    ensures { AddsAlways (bits_bound t.now) result }
{
    let p = term_polynomial(alloc, t)?;
    let bits = bits_of(alloc, &p)?;
    one(alloc, bits)
}

fn bits_half(alloc: Global, t: &Term, items: &[Item], known: &Known) -> Result<Vec<Poly>, Stop>
    ensures { Adds (bits_half t.now (items_view items.now)) known.now result }
{
    let p = term_polynomial(alloc, t)?;
    let unit = small(alloc, 1)?;
    let side = difference(alloc, &p, &unit)?;
    let total = combination(alloc, items, &known.polynomials)?;
    let bits = bits_of(alloc, &p)?;
    let half = div_of(alloc, &p, 2)?;
    let half_bits = bits_of(alloc, &half)?;
    let above = less(alloc, &bits, 1, &half_bits, 1)?;
    let below = negation(alloc, &above)?;
    if total == side {
        two(alloc, above, below)
    } else {
        Err(Stop::Breaks)
    }
}

fn bits_rise(
    alloc: Global,
    t: &Term,
    u: &Term,
    items: &[Item],
    known: &Known,
) -> Result<Vec<Poly>, Stop>
    ensures { Adds (bits_rise t.now u.now (items_view items.now)) known.now result }
{
    let p = term_polynomial(alloc, t)?;
    let q = term_polynomial(alloc, u)?;
    let total = combination(alloc, items, &known.polynomials)?;
    let more = difference(alloc, &q, &p)?;
    let lower = bits_of(alloc, &p)?;
    let upper = bits_of(alloc, &q)?;
    let rise = difference(alloc, &upper, &lower)?;
    if total == more {
        one(alloc, rise)
    } else {
        Err(Stop::Breaks)
    }
}

/// The polynomials that a fact adds.
pub fn added(alloc: Global, fact: &Fact, known: &Known) -> Result<Vec<Poly>, Stop>
    ensures { Adds (fact_tree fact.now) known.now result }
{
    match fact {
        Fact::Range(x) => range(alloc, *x),
        Fact::CostRange(f) => cost_range(alloc, *f),
        Fact::Apart(i, items) => apart(alloc, *i, items, known),
        Fact::NumIs(t, items) => num_is(alloc, t, items, known),
        Fact::NumBounds(t) => num_bounds(alloc, t),
        Fact::WrapUnsignedIs(t, first, second) => wrapu_is(alloc, t, first, second, known),
        Fact::WrapSignedIs(t, first, second) => wraps_is(alloc, t, first, second, known),
        Fact::WrapUnsignedBounds(t) => wrapu_bounds(alloc, t),
        Fact::WrapSignedBounds(t) => wraps_bounds(alloc, t),
        Fact::QuotientBounds(t, n) => quotient_bounds(alloc, t, *n),
        Fact::BitsBound(t) => bits_bound(alloc, t),
        Fact::BitsHalf(t, items) => bits_half(alloc, t, items, known),
        Fact::BitsRise(t, u, items) => bits_rise(alloc, t, u, items, known),
    }
}
