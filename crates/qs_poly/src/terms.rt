// Lists of terms, sorted by their monomials.
ghost use Rattle.std.specs.Prelude.{◌≡◌, ◌≢◌, ◌≤◌, ◌<◌, ◌^◌, pos, ◌*ℤ◌, length, IfOk, OnOk};
ghost use Rattle.std.specs.Prelude.{MatchResult, unsigned_abs};
ghost use Rattle.std.specs.Bool.{MatchBool};
ghost use Rattle.qs_poly.specs.Canonical.{IsCanonical};
ghost use Rattle.qs_poly.specs.Adding.{term_multiple, term_product};
ghost use Rattle.qs_poly.specs.Adding.{IsPlaceOf, AddsTerm, AddsToTerm, PutsLast};
ghost use Rattle.qs_poly.specs.Terms.{sum_of, AllAtMost};

use crate::monomial::Monomial;
use qs_base::NoMemory;
use std::alloc::Global;
use std::cmp::Ordering;

/// A coefficient times a monomial.
#[derive(Drop, Debug)]
pub struct Term {
    pub coefficient: i128,
    pub monomial: Monomial,
}

/// A product of coefficients.
fn times(a: i128, b: i128) -> i128
    requires a_small { unsigned_abs a ≤ 2 ^ 64 }
    requires b_small { unsigned_abs b ≤ 2 ^ 56 }
    ensures { result ≡ a *ℤ b }
{
    a * b
}

impl Term {
    /// The same term, with a monomial of its own.
    pub fn copy(&self, alloc: Global) -> Result<Term, NoMemory>
        ensures { IfOk result (λ t. t ≡ self.now) }
    {
        Ok(Term {
            coefficient: self.coefficient,
            monomial: self.monomial.copy(alloc)?,
        })
    }

    /// The coefficient.
    pub fn narrow_coefficient(&self) -> i64
        requires narrow { unsigned_abs self.now.coefficient ≤ 2 ^ 56 }
        ensures { result ≡ self.now.coefficient }
    {
        self.coefficient as i64
    }

    /// k times the term.
    pub fn scale(&self, alloc: Global, k: i128) -> Result<Term, NoMemory>
        requires small { unsigned_abs k ≤ 2 ^ 64 }
        requires narrow { unsigned_abs self.now.coefficient ≤ 2 ^ 56 }
        ensures { IfOk result (λ t. t ≡ term_multiple k self.now) }
    {
        Ok(Term {
            coefficient: times(k, self.coefficient),
            monomial: self.monomial.copy(alloc)?,
        })
    }

    /// The product of two terms.
    pub fn multiply(&self, alloc: Global, other: &Term) -> Result<Term, NoMemory>
        requires narrow { unsigned_abs self.now.coefficient ≤ 2 ^ 56 }
        requires narrow_other { unsigned_abs other.now.coefficient ≤ 2 ^ 56 }
        ensures { IfOk result (λ t. t ≡ term_product self.now other.now) }
    {
        Ok(Term {
            coefficient: times(self.coefficient, other.coefficient),
            monomial: self.monomial.multiply(alloc, &other.monomial)?,
        })
    }
}

impl PartialEq for Term {
    ghost use Rattle.std.specs.Cmp.{partial_equiv_from_equiv};
    ghost use Rattle.qs_poly.specs.Terms.{term_eq, term_eq_equivalence};

    ghost eq = { term_eq };

    ghost laws = { partial_equiv_from_equiv term_eq_equivalence };

    fn eq(&self, other: &Term) -> bool {
        self.coefficient == other.coefficient && self.monomial == other.monomial
    }
}

impl Eq for Term {
    ghost use Rattle.qs_poly.specs.Terms.{term_eq_equivalence};

    ghost laws = { term_eq_equivalence };
}

/// The same terms in the same order, each with a monomial of its own.
pub fn copy_terms(alloc: Global, from: &[Term]) -> Result<Vec<Term>, NoMemory>
    ensures { IfOk result (λ to. to.items ≡ from.now) }
{
    let mut to = Vec::new(alloc);
    for term in from {
        to.push(term.copy(alloc)?)?;
    }
    Ok(to)
}

/// Where a monomial stands among terms in order, or else where it goes.
fn place_of(terms: &[Term], monomial: &Monomial) -> Result<usize, usize>
    requires canonical { IsCanonical (sum_of terms.now) }
    ensures within { MatchResult result (λ i. i < length terms.now) (λ i. i ≤ length terms.now) }
    ensures place { IsPlaceOf monomial.now terms.now result }
{
    let mut low = 0;
    let mut high = terms.len();
    while low < high {
        let middle = low + (high - low) / 2;
        match monomial.cmp(&terms[middle].monomial) {
            Ordering::Less => high = middle,
            Ordering::Equal => return Ok(middle),
            Ordering::Greater => low = middle + 1,
        }
    }
    Err(low)
}

fn is_zero(x: i128) -> bool
    ensures { MatchBool result (x ≡ pos 0) (x ≢ pos 0) }
{
    x == 0
}

/// Adds to the coefficient of a term, which goes where that makes 0.
fn join(terms: &mut Vec<Term>, i: usize, coefficient: i128)
    requires within { i < length terms.old.items }
    requires small { unsigned_abs coefficient ≤ 2 ^ 125 }
    requires all_small { AllAtMost (2 ^ 125) (sum_of terms.old.items) }
    ensures { AddsToTerm i coefficient terms.old.items terms.new.items }
{
    let sum = coefficient + terms[i].coefficient;
    if is_zero(sum) {
        terms.remove(i);
    } else {
        terms[i].coefficient = sum;
    }
}

/// Adds a term.
pub fn insert_term(terms: &mut Vec<Term>, term: Term) -> Result<(), NoMemory>
    requires small { unsigned_abs term.coefficient ≤ 2 ^ 125 }
    requires all_small { AllAtMost (2 ^ 125) (sum_of terms.old.items) }
    requires canonical { IsCanonical (sum_of terms.old.items) }
    ensures { OnOk result (AddsTerm term terms.old.items terms.new.items) }
{
    match place_of(terms, &term.monomial) {
        Ok(i) => {
            join(terms, i, term.coefficient);
            Ok(())
        }
        Err(i) => {
            if is_zero(term.coefficient) {
                return Ok(());
            }
            terms.insert(i, term)?;
            Ok(())
        }
    }
}

/// Puts a term at the end, unless its coefficient is 0.
pub fn push_unless_zero(terms: &mut Vec<Term>, term: Term) -> Result<(), NoMemory>
    ensures { OnOk result (PutsLast term terms.old.items terms.new.items) }
{
    if is_zero(term.coefficient) {
        return Ok(());
    }
    terms.push(term)?;
    Ok(())
}
