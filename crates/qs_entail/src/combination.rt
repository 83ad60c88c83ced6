// Combinations of the polynomials that are known to be at least 0.
ghost use Rattle.std.specs.Prelude.{◌≡◌, IfOk};
ghost use Rattle.qs_poly.specs.Polynomials.{nothing};
ghost use Rattle.qs_entail.specs.Answers.{Follows, ListFollows};
ghost use Rattle.qs_entail.specs.Building as building;
ghost use Rattle.qs_entail.specs.Combining.{item_counted, CombinesBoth};
ghost use Rattle.qs_entail.specs.Verdicts.{is_counted, are_counted};
ghost use Rattle.qs_entail.specs.View.{item_view, items_view};

use crate::Item;
use crate::operation::{Operation, operate, times_number};
use crate::stop::Stop;
use qs_base::NoMemory;
use qs_poly::Poly;
use std::alloc::Global;

/// Two combinations.
#[derive(Drop)]
pub struct Two {
    pub first: Poly,
    pub second: Poly,
}

/// Whether the number is in a list of so many.
pub fn is_counted(i: i64, count: usize) -> bool
    ensures { result ≡ is_counted i count }
{
    if i < 0 {
        return false;
    }
    (i as usize) < count
}

fn item_counted(item: &Item, count: usize) -> bool
    ensures { result ≡ item_counted item.now count }
{
    match item {
        Item::Once(_, i) => is_counted(*i, count),
        Item::Twice(_, i, j) => is_counted(*i, count) && is_counted(*j, count),
    }
}

/// Whether the numbers of all items are in a list of so many polynomials.
pub fn are_counted(items: &[Item], count: usize) -> bool
    ensures { result ≡ are_counted (items_view items.now) count }
{
    for item in items {
        if !item_counted(item, count) {
            return false;
        }
    }
    true
}

// 0 passes no limit, so no other fault is lost.
fn zero(alloc: Global) -> Result<Poly, NoMemory>
    ensures { IfOk result (λ p. p ≡ nothing) }
{
    Poly::natural(alloc, 0).map_err(|_fault| NoMemory)
}

/// A polynomial of the list by its number, or 0.
fn at<'a>(list: &'a [Poly], i: i64, zero: &'a Poly) -> &'a Poly
    requires { zero.now ≡ nothing }
    ensures { result.now ≡ building.at list.now i }
{
    if i < 0 {
        return zero;
    }
    let i = i as usize;
    if i < list.len() { &list[i] } else { zero }
}

fn product_times(alloc: Global, p: &Poly, q: &Poly, k: u64) -> Result<Poly, Stop>
    ensures { Follows result (building.product_times k p.now q.now) }
{
    let product = operate(alloc, Operation::Product, p, q)?;
    times_number(alloc, &product, k)
}

fn item_polynomial(alloc: Global, item: &Item, list: &[Poly]) -> Result<Poly, Stop>
    ensures { Follows result (building.item_polynomial (item_view item.now) list.now) }
{
    let zero = zero(alloc)?;
    match item {
        Item::Once(k, i) => times_number(alloc, at(list, *i, &zero), *k),
        Item::Twice(k, i, j) => {
            product_times(alloc, at(list, *i, &zero), at(list, *j, &zero), *k)
        }
    }
}

fn item_polynomials(alloc: Global, items: &[Item], list: &[Poly]) -> Result<Vec<Poly>, Stop>
    ensures { ListFollows result (building.item_polynomials (items_view items.now) list.now) }
{
    let mut made = Vec::new(alloc);
    for item in items {
        made.push(item_polynomial(alloc, item, list)?)?;
    }
    Ok(made)
}

/// The sums from left to right.
fn sum_all(alloc: Global, list: &[Poly]) -> Result<Poly, Stop>
    ensures { Follows result (building.sum_all nothing list.now) }
{
    let mut sum = zero(alloc)?;
    for poly in list {
        sum = operate(alloc, Operation::Sum, &sum, poly)?;
    }
    Ok(sum)
}

/// The sum of the items.
pub fn combination(alloc: Global, items: &[Item], list: &[Poly]) -> Result<Poly, Stop>
    ensures { Follows result (building.combination (items_view items.now) list.now) }
{
    let made = item_polynomials(alloc, items, list)?;
    sum_all(alloc, &made)
}

/// The sums of the items of two combinations; all items come before the sums.
pub fn two_combinations(alloc: Global, v: &[Item], w: &[Item], list: &[Poly]) -> Result<Two, Stop>
    ensures { CombinesBoth v.now w.now list.now result }
{
    let ps = item_polynomials(alloc, v, list)?;
    let qs = item_polynomials(alloc, w, list)?;
    let first = sum_all(alloc, &ps)?;
    let second = sum_all(alloc, &qs)?;
    Ok(Two { first, second })
}
