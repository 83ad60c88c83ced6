// Certificates of 10,000 nodes.
use qs_assert::Assertion;
use qs_base::FnId;
use qs_entail::{CertFault, Certificate, Fact, check};
use std::alloc::Global;

/// Whether the certificate is accepted that an assertion is at least another.
fn is_accepted(alloc: Global, p: &Assertion, q: &Assertion, c: &Certificate) -> Option<bool> {
    match check(alloc, &[], &[], p, q, c) {
        Ok(()) => Some(true),
        Err(CertFault::NoMemory) => None,
        Err(CertFault::Step(_, _)) => Some(false),
        Err(CertFault::Limit(_, _)) => Some(false),
    }
}

/// So many times the assertion.
fn copies(alloc: Global, a: &Assertion, count: u32) -> Option<Vec<Assertion>> {
    let mut list = Vec::new(alloc);
    for _ in 0..count {
        list.push(a.copy(alloc).ok()?).ok()?;
    }
    Some(list)
}

/// A part for each of a hundred summands that are the same on both sides.
fn same_parts(alloc: Global) -> Option<Certificate> {
    let mut parts = Vec::new(alloc);
    for _ in 0..100 {
        parts.push(Certificate::Same).ok()?;
    }
    Some(Certificate::Parts(parts))
}

/// A sum of a hundred sums of a hundred costs is at least itself, part by part.
pub fn are_parts_accepted(alloc: Global) -> Option<bool> {
    let cost = Assertion::cost(alloc, FnId(0)).ok()?;
    let sum = Assertion::total(alloc, &copies(alloc, &cost, 100)?).ok()?;
    let sums = Assertion::total(alloc, &copies(alloc, &sum, 100)?).ok()?;
    let mut parts = Vec::new(alloc);
    for _ in 0..100 {
        parts.push(same_parts(alloc)?).ok()?;
    }
    is_accepted(alloc, &sums, &sums, &Certificate::Parts(parts))
}

/// A thousand facts, one behind the other.
fn chain(alloc: Global) -> Option<Certificate> {
    let mut c = Certificate::Same;
    for _ in 0..1000 {
        let behind = Box::new(alloc, c).ok()?;
        c = Certificate::Fact(Fact::CostRange(FnId(0)), behind);
    }
    Some(c)
}

/// A cost is at least the greatest of ten copies of it, by a thousand facts for each.
pub fn are_chains_accepted(alloc: Global) -> Option<bool> {
    let cost = Assertion::cost(alloc, FnId(0)).ok()?;
    let greatest = Assertion::greatest(alloc, &copies(alloc, &cost, 10)?).ok()?;
    let mut chains = Vec::new(alloc);
    for _ in 0..10 {
        chains.push(chain(alloc)?).ok()?;
    }
    is_accepted(alloc, &cost, &greatest, &Certificate::All(chains))
}
