// Operations on polynomials under the limits.
ghost use Rattle.std.specs.Prelude.{pos, Ok};
ghost use Rattle.qs_poly.specs.Atoms.{tree_of};
ghost use Rattle.qs_poly.specs.Limits.{Gives};
ghost use Rattle.qs_poly.specs.Operations as operations;
ghost use Rattle.qs_poly.specs.Polynomials.{Polynomial};
ghost use Rattle.qs_entail.specs.Answers.{Follows};
ghost use Rattle.qs_entail.specs.Building as building;
ghost use Rattle.qs_entail.specs.Stacks.{operated};

use crate::stop::Stop;
use qs_poly::{Atom, Poly, PolyFault};
use std::alloc::Global;

/// What is done to two polynomials.
#[derive(Clone, Copy)]
pub enum Operation {
    Sum,
    Difference,
    Product,
}

/// What an operation answers, as what a step answers.
pub fn limited(given: Result<Poly, PolyFault>) -> Result<Poly, Stop>
    ensures { (p : Polynomial) → Gives given p → Follows result (building.limited p) }
{
    Ok(given?)
}

/// p less q.
pub fn difference(alloc: Global, p: &Poly, q: &Poly) -> Result<Poly, Stop>
    ensures { Follows result (building.difference p.now q.now) }
{
    limited(p.less(alloc, 1, q, 0))
}

/// The natural number n.
pub fn number_of(alloc: Global, n: u64) -> Result<Poly, Stop>
    ensures { Follows result (building.limited (operations.number (pos n))) }
{
    limited(Poly::natural(alloc, n))
}

/// The polynomial k times.
pub fn times_number(alloc: Global, p: &Poly, k: u64) -> Result<Poly, Stop>
    ensures { Follows result (building.limited (operations.multiple (pos k) p.now)) }
{
    limited(p.times(alloc, k))
}

/// An atom.
pub fn atom_of(alloc: Global, a: &Atom) -> Result<Poly, Stop>
    ensures { Follows result (Ok (operations.single (tree_of a.now))) }
{
    Ok(Poly::atom(alloc, a)?)
}

/// The operation on two polynomials.
pub fn operate(alloc: Global, operation: Operation, p: &Poly, q: &Poly) -> Result<Poly, Stop>
    ensures { Follows result (building.limited (operated operation p.now q.now)) }
{
    match operation {
        Operation::Sum => limited(p.add(alloc, q)),
        Operation::Difference => difference(alloc, p, q),
        Operation::Product => limited(p.multiply(alloc, q)),
    }
}
