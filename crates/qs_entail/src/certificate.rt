// Certificates: why one assertion is at least another.
use crate::Item;
use qs_assert::{Assertion, Cond, Term, Var};
use qs_base::{FnId, Name};

/// A fact, which adds polynomials to the list of those that are known to be at least 0.
///
/// An item whose number no polynomial has fails the side condition, whatever the fact.
#[derive(Debug, Drop)]
pub enum Fact {
    /// The variable less the least number of its type, and the greatest number less the variable
    /// (C11 6.2.5).
    Range(Var),
    /// The cost of a function.
    CostRange(FnId),
    /// The items less 1. The condition of this number says that two terms differ, and the items are
    /// one of the two less the other.
    Apart(i64, Vec<Item>),
    /// `num t` less `t`, and `t` less `num t`. The items are `t`.
    NumIs(Term, Vec<Item>),
    /// `num t`, and `num t` less `t`.
    NumBounds(Term),
    /// `wrapu t` less `t`, and `t` less `wrapu t`. The first items are `t`, the second 2^32 - 1
    /// less `t`.
    WrapUnsignedIs(Term, Vec<Item>, Vec<Item>),
    /// `wraps t` less `t`, and `t` less `wraps t`. The first items are `t` and 2^31, the second
    /// 2^31 - 1 less `t`.
    WrapSignedIs(Term, Vec<Item>, Vec<Item>),
    /// `wrapu t`, and 2^32 - 1 less `wrapu t`.
    WrapUnsignedBounds(Term),
    /// `wraps t` and 2^31, and 2^31 - 1 less `wraps t`.
    WrapSignedBounds(Term),
    /// `t` less k times the quotient of `t` by k, and k times the quotient and k - 1, less `t`. The
    /// number k is at least 1.
    QuotientBounds(Term, u64),
    /// `bits t`.
    BitsBound(Term),
    /// `bits t` less 1 and less the `bits` of half of `t`, and the negation. The items are `t` less
    /// 1.
    BitsHalf(Term, Vec<Item>),
    /// The `bits` of the second term less those of the first. The items are the second term less
    /// the first.
    BitsRise(Term, Term, Vec<Item>),
}

/// A certificate that P is at least Q, under the conditions and with the polynomials of its place.
#[derive(Drop)]
pub enum Certificate {
    /// P and Q are the same tree.
    Same,
    /// The first part shows that P is at least this assertion, the second that it is at least Q.
    Via(Assertion, Box<Certificate>, Box<Certificate>),
    /// P is a greatest; the part is for its member of this number, from 0.
    Pick(i64, Box<Certificate>),
    /// Q is a greatest; there is one part for each member.
    All(Vec<Certificate>),
    /// P and Q are sums of as many summands; there is one part for each.
    Parts(Vec<Certificate>),
    /// P is a guard; the part shows that its body is at least Q, with the guard's condition.
    Assume(Box<Certificate>),
    /// Q is a guard. The first part shows that 0 is at least infinity, with the negation of the
    /// guard's condition; the second shows that P is at least the body.
    DropGuard(Box<Certificate>, Box<Certificate>),
    /// The first part has the condition, and each conditional on the same tree in P and Q replaced
    /// by its first branch; the second part has the negation, and the second branch.
    Split(Cond, Box<Certificate>, Box<Certificate>),
    /// The items are -1.
    Contradict(Vec<Item>),
    /// P and Q have only numbers, costs, `num`, sums and products, and the items are P less Q.
    Arithmetic(Vec<Item>),
    /// The name has a definition; the part has each such name in P and Q replaced by the body of
    /// its first definition.
    ByDefinition(Name, Box<Certificate>),
    /// A fact, and then the part.
    Fact(Fact, Box<Certificate>),
}
