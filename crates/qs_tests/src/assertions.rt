// That memory is found for a tree that is deep.
use qs_assert::{Amount, Assertion, NumberType, Term, Var, VarKind, substitute, value_at};
use qs_base::NoMemory;
use std::alloc::Global;
use std::test::Fail;

const X: Var = Var {
    kind: VarKind::Plain(0),
    number: NumberType::Int,
};

/// `t` less `k`.
fn less(alloc: Global, t: &Term, k: i64) -> Result<Term, NoMemory> {
    let number = Term::number(alloc, k)?;
    Term::sub(alloc, t, &number)
}

/// `x` less 1, less 1, and so on, 20,000 times.
fn deep(alloc: Global) -> Result<Assertion, NoMemory> {
    let mut term = Term::variable(alloc, X)?;
    for _ in 0..20_000 {
        term = less(alloc, &term, 1)?;
    }
    Assertion::num(alloc, &term)
}

fn with_number(alloc: Global, a: &Assertion, k: i64) -> Result<Assertion, NoMemory> {
    let number = Term::number(alloc, k)?;
    substitute(alloc, a, &X, &number)
}

#[test]
fn a_deep_term(rt: HostRuntime) -> Result<(), Fail> {
    let assertion = deep(rt.alloc())?;
    let copy = assertion.copy(rt.alloc())?;
    assert!(rt; assertion.same(&copy));
    let replaced = with_number(rt.alloc(), &assertion, 20_005)?;
    assert!(rt; !assertion.same(&replaced));
    let amount = value_at(rt.alloc(), &replaced, &[], &[], &[])?;
    assert_eq!(rt; amount, Amount::Finite(5));
    Ok(())
}
