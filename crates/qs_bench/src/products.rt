// Products of polynomials with as many terms as there may be.
use qs_assert::{NumberType, Var, VarKind};
use qs_poly::{Atom, Poly, PolyFault};
use std::alloc::Global;

const TERMS: u32 = 64;

/// The sum of 64 variables, the first of this number.
fn variables(alloc: Global, first: u8) -> Option<Poly> {
    let mut sum = Poly::number(alloc, 0).ok()?;
    for i in 0..TERMS {
        let x = Atom::Variable(Var {
            kind: VarKind::Plain(u32::from(first) + i),
            number: NumberType::Int,
        });
        sum = sum.add(alloc, &Poly::atom(alloc, &x).ok()?).ok()?;
    }
    Some(sum)
}

/// Whether a product of 4,096 terms is refused for their count.
pub fn are_products_refused(alloc: Global) -> Option<bool> {
    let a = variables(alloc, 0)?;
    let b = variables(alloc, 64)?;
    match a.multiply(alloc, &b) {
        Err(PolyFault::ManyTerms) => Some(true),
        Err(PolyFault::NoMemory) => None,
        Err(PolyFault::Wide) => Some(false),
        Err(PolyFault::HighDegree) => Some(false),
        Ok(_) => Some(false),
    }
}
