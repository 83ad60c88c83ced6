// That memory is found: a product, and an atom that is nested deeply.
use qs_assert::{NumberType, Var, VarKind};
use qs_poly::{Atom, Poly, PolyFault};
use std::alloc::Global;
use std::test::*;

fn x(alloc: Global) -> Result<Poly, PolyFault> {
    let variable = Var {
        kind: VarKind::Plain(0),
        number: NumberType::Int,
    };
    Ok(Poly::atom(alloc, &Atom::Variable(variable))?)
}

/// x and a number.
fn x_plus(alloc: Global, k: i64) -> Result<Poly, PolyFault> {
    x(alloc)?.add(alloc, &Poly::number(alloc, k)?)
}

fn square(alloc: Global, p: &Poly) -> Result<Poly, PolyFault> {
    p.multiply(alloc, p)
}

/// So many times wrapu of x.
fn nested(alloc: Global, depth: u32) -> Result<Poly, PolyFault> {
    let mut poly = x(alloc)?;
    for _ in 0..depth {
        poly = Poly::atom(alloc, &Atom::Wrapu(poly))?;
    }
    Ok(poly)
}

#[test]
fn a_product_is_exact(rt: HostRuntime) -> Result<(), Fail> {
    // (x - 1) * (x + 1) is x^2 - 1
    let alloc = rt.alloc();
    let product = x_plus(alloc, -1)?.multiply(alloc, &x_plus(alloc, 1)?)?;
    let expected = square(alloc, &x(alloc)?)?.add(alloc, &Poly::number(alloc, -1)?)?;
    assert!(rt; product == expected);
    assert_eq!(rt; product.count(), 2);
    Ok(())
}

#[test]
fn atoms_nest_deeply(rt: HostRuntime) -> Result<(), Fail> {
    let alloc = rt.alloc();
    let deep = nested(alloc, 20_000)?;
    let copied = deep.copy(alloc)?;
    assert!(rt; copied == deep);
    let deeper = Poly::atom(alloc, &Atom::Wrapu(copied))?;
    assert!(rt; deep != deeper);
    assert!(rt; deep.multiply(alloc, &deeper)? == deeper.multiply(alloc, &deep)?);
    assert_eq!(rt; deep.add(alloc, &deeper)?.count(), 2);
    Ok(())
}
