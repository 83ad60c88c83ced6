// Terms that nest as deep as the nodes of a function allow.
use qs_assert::{Assertion, NumberType, Term, Var, VarKind};
use qs_entail::{CertFault, Certificate, Fact, check};
use std::alloc::Global;

const DEPTH: u32 = 20_000;

/// x modulo 2^32, again and again.
fn nested(alloc: Global) -> Option<Term> {
    let x = Var {
        kind: VarKind::Plain(0),
        number: NumberType::Unsigned,
    };
    let mut t = Term::variable(alloc, x).ok()?;
    for _ in 0..DEPTH {
        t = Term::wrapu(alloc, &t).ok()?;
    }
    Some(t)
}

/// Whether a deep term is made into a polynomial: its natural part is at least itself, by the fact on its
/// bounds.
pub fn are_deep_terms_accepted(alloc: Global) -> Option<bool> {
    let t = nested(alloc)?;
    let p = Assertion::num(alloc, &t).ok()?;
    let same = Box::new(alloc, Certificate::Same).ok()?;
    let c = Certificate::Fact(Fact::NumBounds(t), same);
    match check(alloc, &[], &[], &p, &p, &c) {
        Ok(()) => Some(true),
        Err(CertFault::NoMemory) => None,
        Err(CertFault::Step(_, _)) => Some(false),
        Err(CertFault::Limit(_, _)) => Some(false),
    }
}
