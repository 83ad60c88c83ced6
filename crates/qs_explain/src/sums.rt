// A node of a certificate as text: its rule, what is there and needed and known, and what its
// combinations are asked to be, are, and leave over.
use crate::goals::Owner;
use crate::page::Page;
use crate::rules::word_of;
use qs_assert::{AssertionView, Term};
use qs_base::NoMemory;
use qs_entail::{
    Certificate, Fact, Item, Known, Sides, Stop, assertion_polynomial, combined, different_sides,
    rule_of, term_polynomial,
};
use qs_poly::Poly;
use std::alloc::Global;

fn difference(alloc: Global, p: &Poly, q: &Poly) -> Result<Poly, Stop> {
    Ok(p.less(alloc, 1, q, 0)?)
}

fn minus_one(alloc: Global) -> Result<Poly, Stop> {
    Ok(Poly::number(alloc, -1)?)
}

// The term and a number.
fn term_and(alloc: Global, t: &Term, k: i64) -> Result<Poly, Stop> {
    let p = term_polynomial(alloc, t)?;
    let number = Poly::number(alloc, k)?;
    Ok(p.add(alloc, &number)?)
}

// A number less the term.
fn less_term(alloc: Global, k: i64, t: &Term) -> Result<Poly, Stop> {
    let p = term_polynomial(alloc, t)?;
    let number = Poly::number(alloc, k)?;
    difference(alloc, &number, &p)
}

fn between(alloc: Global, t: &Term, u: &Term) -> Result<Poly, Stop> {
    let p = term_polynomial(alloc, t)?;
    let q = term_polynomial(alloc, u)?;
    difference(alloc, &p, &q)
}

// The two terms of which a condition says that they differ.
fn sides_at(alloc: Global, known: &Known, i: i64) -> Result<Sides, Stop> {
    if i < 0 {
        return Err(Stop::Breaks);
    }
    let condition = known.conditions.get(i as usize).ok_or(Stop::Breaks)?;
    different_sides(alloc, condition)
}

fn arithmetic(alloc: Global, p: &AssertionView<'_>, q: &AssertionView<'_>) -> Result<Poly, Stop> {
    let left = assertion_polynomial(alloc, p)?;
    let right = assertion_polynomial(alloc, q)?;
    difference(alloc, &left, &right)
}

const NO_NUMBER: &[u8] = b"none, since L ends before a number of theirs";

const NO_DIFFERENCE: &[u8] =
    b"none, since P or Q has a guard, an `if`, a maximum, a name or infinity";

const NO_SIDES: &[u8] = b"H has no such number, or there neither `ne` nor the `not` of an `eq`\n";

fn owner_word(owner: Owner) -> &'static [u8] {
    match owner {
        Owner::Entry => b"entry",
        Owner::Loop => b"loop",
        Owner::Call => b"call",
        Owner::Use => b"use",
    }
}

impl Page<'_> {
    // Puts a polynomial, or why there is none.
    fn put_made(
        &mut self,
        before: &[u8],
        made: &Result<Poly, Stop>,
        lack: &[u8],
    ) -> Result<(), NoMemory> {
        self.put(before)?;
        match made {
            Ok(p) => self.put_polynomial(p)?,
            Err(Stop::NoMemory) => return Err(NoMemory),
            Err(Stop::Breaks) => self.put(lack)?,
            Err(Stop::Passes(limit)) => self.put_number(b"past limit ", u64::from(limit.number()))?,
        }
        self.put(b"\n")
    }

    // Puts what the items are asked to be, what they are, and the difference.
    fn put_sum(
        &mut self,
        known: &Known,
        items: &[Item],
        asked: Result<Poly, Stop>,
    ) -> Result<(), NoMemory> {
        let given = combined(self.alloc, items, &known.polynomials);
        self.put_made(b"asked for: ", &asked, NO_DIFFERENCE)?;
        self.put_made(b"the items: ", &given, NO_NUMBER)?;
        match (asked, given) {
            (Ok(asked), Ok(given)) => {
                let rest = difference(self.alloc, &asked, &given);
                self.put_made(b"left over: ", &rest, b"")
            }
            _ => Ok(()),
        }
    }

    // Puts both differences of the sides of a condition, of which one is to be what the items are.
    fn put_apart(&mut self, known: &Known, i: i64, items: &[Item]) -> Result<(), NoMemory> {
        match sides_at(self.alloc, known, i) {
            Ok(sides) => {
                let first = between(self.alloc, &sides.left, &sides.right);
                let second = between(self.alloc, &sides.right, &sides.left);
                self.put_sum(known, items, first)?;
                self.put(b"or\n")?;
                self.put_sum(known, items, second)
            }
            Err(Stop::NoMemory) => Err(NoMemory),
            Err(_) => self.put(NO_SIDES),
        }
    }

    fn put_fact(&mut self, known: &Known, fact: &Fact) -> Result<(), NoMemory> {
        let alloc = self.alloc;
        match fact {
            Fact::Apart(i, items) => self.put_apart(known, *i, items),
            Fact::NumIs(t, items) => self.put_sum(known, items, term_and(alloc, t, 0)),
            Fact::WrapUnsignedIs(t, v, w) => {
                self.put_sum(known, v, term_and(alloc, t, 0))?;
                self.put(b"and\n")?;
                self.put_sum(known, w, less_term(alloc, 4_294_967_295, t))
            }
            Fact::WrapSignedIs(t, v, w) => {
                self.put_sum(known, v, term_and(alloc, t, 2_147_483_648))?;
                self.put(b"and\n")?;
                self.put_sum(known, w, less_term(alloc, 2_147_483_647, t))
            }
            Fact::BitsHalf(t, items) => self.put_sum(known, items, term_and(alloc, t, -1)),
            Fact::BitsRise(t, u, items) => self.put_sum(known, items, between(alloc, u, t)),
            _ => Ok(()),
        }
    }

    // Puts where a node stands, its word, and its rule.
    fn put_head(&mut self, certificate: &Certificate) -> Result<(), NoMemory> {
        self.put(owner_word(self.owner))?;
        self.put(b": ")?;
        self.put(word_of(certificate))?;
        self.put_number(b", rule ", u64::from(rule_of(certificate).number()))?;
        self.put(b"\n")
    }

    /// Puts a node, where P is there and Q is needed.
    pub fn put_certificate(
        &mut self,
        known: &Known,
        certificate: &Certificate,
        p: &AssertionView<'_>,
        q: &AssertionView<'_>,
    ) -> Result<(), NoMemory> {
        self.put_head(certificate)?;
        self.put(b"P, what is there:\n")?;
        self.put_tree(p.nodes())?;
        self.put(b"Q, what is needed:\n")?;
        self.put_tree(q.nodes())?;
        self.put_known(known)?;
        match certificate {
            Certificate::Contradict(items) => { self.put_sum(known, items, minus_one(self.alloc)) }
            Certificate::Arithmetic(items) => {
                self.put_sum(known, items, arithmetic(self.alloc, p, q))
            }
            Certificate::Fact(fact, _) => self.put_fact(known, fact),
            _ => self.put_shape(certificate, p, q),
        }
    }
}
