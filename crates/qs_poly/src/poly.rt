// Polynomials, and the operations on them.
ghost use Rattle.std.specs.Prelude.{◌≡◌, pos, IfOk};
ghost use Rattle.std.specs.Cmp.{partial_equiv_from_equiv};
ghost use Rattle.qs_poly.specs.Canonical.{IsCanonical, IsCanonicalAtom};
ghost use Rattle.qs_poly.specs.Operations.{number, single, sum, multiple, lessened, product};
ghost use Rattle.qs_poly.specs.Limits.{is_narrow, all_narrow, count_terms, has_few_terms};
ghost use Rattle.qs_poly.specs.Limits.{is_low, all_low, Gives, IsPolynomial};
ghost use Rattle.qs_poly.specs.Terms.{polynomial_eq, polynomial_eq_equivalence, sum_of, terms};

use crate::code::AtomCode;
use crate::fault::PolyFault;
use crate::monomial::Monomial;
use crate::sums::{add_terms, less_terms, multiply_terms, scale_terms};
use crate::terms::{Term, copy_terms, insert_term};
use qs_base::NoMemory;
use std::alloc::Global;
use std::marker::Model;

/// A polynomial with whole coefficients over atoms, in canonical form: equal polynomials are equal
/// values. It has at most 64 terms of degree at most 4, with coefficients from -2^56 to 2^56.
#[derive(Drop)]
pub struct Poly {
    terms: Vec<Term>,
}

impl Model for Poly {
    ghost use Rattle.qs_poly.specs.Polynomials.{Polynomial};

    ghost Value = { Polynomial };

    ghost use Rattle.qs_poly.specs.Codes.{coded_polynomial};
    ghost use Rattle.qs_poly.specs.Limits.{IsPolynomial};
    ghost use Rattle.qs_poly.specs.Terms.{sum_of};

    ghost coded = { coded_polynomial };

    ghost view = { λ p. sum_of p.terms.items };

    ghost invariant = { λ p. IsPolynomial (sum_of p.terms.items) };
}

fn is_narrow(coefficient: i128) -> bool
    ensures { result ≡ is_narrow coefficient }
{
    -72_057_594_037_927_936 <= coefficient && coefficient <= 72_057_594_037_927_936
}

fn all_narrow(terms: &[Term]) -> bool
    ensures { result ≡ all_narrow (sum_of terms.now) }
{
    for term in terms {
        if !is_narrow(term.coefficient) {
            return false;
        }
    }
    true
}

#[tactic(auto, using(crate::proofs::Steps::count_is))]
fn has_few_terms(terms: &[Term]) -> bool
    ensures { result ≡ has_few_terms (sum_of terms.now) }
{
    terms.len() <= 64
}

fn is_low(monomial: &Monomial) -> bool
    ensures { result ≡ is_low monomial.now }
{
    monomial.degree() <= 4
}

fn all_low(terms: &[Term]) -> bool
    ensures { result ≡ all_low (sum_of terms.now) }
{
    for term in terms {
        if !is_low(&term.monomial) {
            return false;
        }
    }
    true
}

/// The polynomial of these terms, or the first limit that it passes.
fn limited(terms: Vec<Term>) -> Result<Poly, PolyFault>
    requires canonical { IsCanonical (sum_of terms.items) }
    ensures { Gives result (sum_of terms.items) }
{
    if !all_narrow(&terms) {
        return Err(PolyFault::Wide);
    }
    if !has_few_terms(&terms) {
        return Err(PolyFault::ManyTerms);
    }
    if !all_low(&terms) {
        return Err(PolyFault::HighDegree);
    }
    Ok(Poly { terms })
}

impl Poly {
    /// The number k. `Wide` where k is below -2^56 or above 2^56.
    pub fn number(alloc: Global, k: i64) -> Result<Poly, PolyFault>
        ensures { Gives result (number k) }
    {
        let mut terms = Vec::new(alloc);
        let term = Term {
            coefficient: i128::from(k),
            monomial: Monomial::one(alloc),
        };
        insert_term(&mut terms, term)?;
        limited(terms)
    }

    /// The natural number n. `Wide` where it is above 2^56.
    pub fn natural(alloc: Global, n: u64) -> Result<Poly, PolyFault>
        ensures { Gives result (number (pos n)) }
    {
        let mut terms = Vec::new(alloc);
        let term = Term {
            coefficient: i128::from(n),
            monomial: Monomial::one(alloc),
        };
        insert_term(&mut terms, term)?;
        limited(terms)
    }

    /// The sum.
    pub fn add(&self, alloc: Global, b: &Poly) -> Result<Poly, PolyFault>
        ensures { Gives result (sum self.now b.now) }
    {
        let mut terms = copy_terms(alloc, &b.terms)?;
        add_terms(alloc, &self.terms, &mut terms)?;
        limited(terms)
    }

    /// The polynomial k times.
    pub fn scale(&self, alloc: Global, k: i64) -> Result<Poly, PolyFault>
        ensures { Gives result (multiple k self.now) }
    {
        limited(scale_terms(alloc, &self.terms, i128::from(k))?)
    }

    /// The polynomial n times.
    pub fn times(&self, alloc: Global, n: u64) -> Result<Poly, PolyFault>
        ensures { Gives result (multiple (pos n) self.now) }
    {
        limited(scale_terms(alloc, &self.terms, i128::from(n))?)
    }

    /// The polynomial, less k times b, less c.
    pub fn less(&self, alloc: Global, k: u64, b: &Poly, c: u64) -> Result<Poly, PolyFault>
        ensures { Gives result (lessened self.now k b.now c) }
    {
        limited(less_terms(alloc, &self.terms, k, &b.terms, c)?)
    }

    /// The product.
    pub fn multiply(&self, alloc: Global, b: &Poly) -> Result<Poly, PolyFault>
        ensures { Gives result (product self.now b.now) }
    {
        limited(multiply_terms(alloc, &self.terms, &b.terms)?)
    }

    /// The polynomial of one atom.
    pub(crate) fn single(alloc: Global, atom: AtomCode) -> Result<Poly, NoMemory>
        requires canonical { IsCanonicalAtom atom }
        ensures { IfOk result (λ p. p ≡ single atom) }
    {
        let mut terms = Vec::new(alloc);
        terms.push(Term {
            coefficient: 1,
            monomial: Monomial::single(alloc, atom)?,
        })?;
        Ok(Poly { terms })
    }

    /// The terms in order.
    #[tactic(auto, using(crate::specs::Terms::terms_of_sum))]
    pub(crate) fn terms(&self) -> &[Term]
        ensures terms { result.now ≡ terms self.now }
        ensures polynomial { IsPolynomial self.now }
    {
        &self.terms
    }

    /// A polynomial that is equal.
    pub fn copy(&self, alloc: Global) -> Result<Poly, NoMemory>
        ensures { IfOk result (λ p. p ≡ self.now) }
    {
        Ok(Poly {
            terms: copy_terms(alloc, &self.terms)?,
        })
    }

    /// The count of terms.
    #[tactic(auto, using(crate::proofs::Steps::count_is))]
    pub fn count(&self) -> usize
        ensures count { result ≡ count_terms self.now }
        ensures polynomial { IsPolynomial self.now }
    {
        self.terms.len()
    }
}

impl PartialEq for Poly {
    ghost eq = { polynomial_eq };

    ghost laws = { partial_equiv_from_equiv polynomial_eq_equivalence };

    #[tactic(auto, using(crate::specs::Terms::terms_of_sum))]
    fn eq(&self, other: &Poly) -> bool {
        self.terms == other.terms
    }
}

impl Eq for Poly {
    ghost laws = { polynomial_eq_equivalence };
}
