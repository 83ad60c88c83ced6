// Sums, multiples and products of lists of terms, before any limit is asked.
ghost use Rattle.std.specs.Prelude.{◌≡◌, ◌≤◌, ◌^◌, pos, ◌-ℤ◌, length, IfOk, OnOk, unsigned_abs};
ghost use Rattle.qs_poly.specs.Canonical.{IsCanonical, IsCanonicalMonomial};
ghost use Rattle.qs_poly.specs.Adding.{terms_less, AddsTerms, AddsProduct};
ghost use Rattle.qs_poly.specs.Operations.{multiple, product};
ghost use Rattle.qs_poly.specs.Terms.{sum_of, AllAtMost};

use crate::monomial::Monomial;
use crate::terms::{Term, insert_term, push_unless_zero};
use qs_base::NoMemory;
use std::alloc::Global;

/// Adds terms to terms.
pub fn add_terms(alloc: Global, terms: &[Term], so_far: &mut Vec<Term>) -> Result<(), NoMemory>
    requires few { length terms.now ≤ 64 }
    requires narrow { AllAtMost (2 ^ 56) (sum_of terms.now) }
    requires small { AllAtMost (2 ^ 120) (sum_of so_far.old.items) }
    requires canonical_terms { IsCanonical (sum_of terms.now) }
    requires canonical { IsCanonical (sum_of so_far.old.items) }
    ensures { OnOk result (AddsTerms terms.now so_far.old.items so_far.new.items) }
{
    for term in terms {
        insert_term(so_far, term.copy(alloc)?)?;
    }
    Ok(())
}

/// The terms k times.
pub fn scale_terms(alloc: Global, terms: &[Term], k: i128) -> Result<Vec<Term>, NoMemory>
    requires small { unsigned_abs k ≤ 2 ^ 64 }
    requires narrow { AllAtMost (2 ^ 56) (sum_of terms.now) }
    ensures { IfOk result (λ v. sum_of v.items ≡ multiple k (sum_of terms.now)) }
{
    let mut multiples = Vec::new(alloc);
    for term in terms {
        push_unless_zero(&mut multiples, term.scale(alloc, k)?)?;
    }
    Ok(multiples)
}

fn negative(n: u64) -> i128
    ensures { result ≡ pos 0 -ℤ pos n }
{
    -i128::from(n)
}

/// The terms, less k times others, less c.
pub fn less_terms(
    alloc: Global,
    terms: &[Term],
    k: u64,
    others: &[Term],
    c: u64,
) -> Result<Vec<Term>, NoMemory>
    requires few { length terms.now ≤ 64 }
    requires narrow_terms { AllAtMost (2 ^ 56) (sum_of terms.now) }
    requires narrow_others { AllAtMost (2 ^ 56) (sum_of others.now) }
    requires canonical_terms { IsCanonical (sum_of terms.now) }
    requires canonical_others { IsCanonical (sum_of others.now) }
    ensures { IfOk result (λ v. sum_of v.items ≡ terms_less terms.now k others.now c) }
{
    let mut so_far = scale_terms(alloc, others, negative(k))?;
    add_terms(alloc, terms, &mut so_far)?;
    let number = Term {
        coefficient: negative(c),
        monomial: Monomial::one(alloc),
    };
    insert_term(&mut so_far, number)?;
    Ok(so_far)
}

/// Adds a term times terms.
fn add_term_product(
    alloc: Global,
    term: &Term,
    others: &[Term],
    so_far: &mut Vec<Term>,
) -> Result<(), NoMemory>
    requires narrow_term { unsigned_abs term.now.coefficient ≤ 2 ^ 56 }
    requires few { length others.now ≤ 64 }
    requires narrow { AllAtMost (2 ^ 56) (sum_of others.now) }
    requires small { AllAtMost (2 ^ 124) (sum_of so_far.old.items) }
    requires canonical_term { IsCanonicalMonomial term.now.monomial }
    requires canonical_others { IsCanonical (sum_of others.now) }
    requires canonical { IsCanonical (sum_of so_far.old.items) }
    ensures { OnOk result (AddsProduct term.now others.now so_far.old.items so_far.new.items) }
{
    for other in others {
        insert_term(so_far, term.multiply(alloc, other)?)?;
    }
    Ok(())
}

/// The product of terms and terms.
pub fn multiply_terms(alloc: Global, terms: &[Term], others: &[Term]) -> Result<Vec<Term>, NoMemory>
    requires few_terms { length terms.now ≤ 64 }
    requires few_others { length others.now ≤ 64 }
    requires narrow_terms { AllAtMost (2 ^ 56) (sum_of terms.now) }
    requires narrow_others { AllAtMost (2 ^ 56) (sum_of others.now) }
    requires canonical_terms { IsCanonical (sum_of terms.now) }
    requires canonical_others { IsCanonical (sum_of others.now) }
    ensures { IfOk result (λ v. sum_of v.items ≡ product (sum_of terms.now) (sum_of others.now)) }
{
    let mut so_far = Vec::new(alloc);
    for term in terms {
        add_term_product(alloc, term, others, &mut so_far)?;
    }
    Ok(so_far)
}
