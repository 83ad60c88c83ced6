// The heads of terms, conditions and assertions. A tree is kept as the list of its heads, each
// before its parts, so that no tree is too deep to be walked.
use crate::Var;
use qs_base::{FnId, Name};

/// The head of a term; the parts of the term follow it.
#[derive(Clone, Copy, Debug)]
pub enum TermNode {
    /// A number.
    Number(i64),
    /// A variable.
    Variable(Var),
    /// The sum of so many terms.
    Add(usize),
    /// The difference of two terms.
    Sub,
    /// The product of so many terms.
    Mul(usize),
    /// The quotient of a term by this number, rounded down.
    Div(u64),
    /// A term modulo 2^32.
    WrapUnsigned,
    /// A term modulo 2^32, from -2^31 to 2^31 - 1.
    WrapSigned,
    /// The least k of at least 0 such that the term is less than 2^k.
    Bits,
}

/// The head of a condition; the parts of the condition follow it.
#[derive(Clone, Copy, Debug)]
pub enum CondNode {
    /// One term is at most another.
    Le,
    /// One term is less than another.
    Lt,
    /// Two terms are equal.
    Eq,
    /// Two terms differ.
    Ne,
    /// A condition does not hold.
    Not,
    /// So many conditions all hold.
    And(usize),
    /// Of so many conditions one holds.
    Or(usize),
}

/// The head of an assertion; the parts of the assertion follow it.
#[derive(Debug, Drop)]
pub enum AssertionNode {
    /// A natural number.
    Natural(u64),
    /// Infinity.
    Infinity,
    /// The cost of a function.
    Cost(FnId),
    /// The greater of 0 and a term.
    Num,
    /// The sum of so many assertions.
    Total(usize),
    /// The greatest of so many assertions.
    Greatest(usize),
    /// The product of so many assertions.
    Product(usize),
    /// An assertion where a condition holds, else infinity.
    Guard,
    /// The first assertion where a condition holds, else the second.
    If,
    /// The value of a definition.
    Named(Name),
}

/// The head of a term, a condition or an assertion.
#[derive(Debug, Drop)]
pub enum Node {
    /// The head of a term.
    Term(TermNode),
    /// The head of a condition.
    Condition(CondNode),
    /// The head of an assertion.
    Assertion(AssertionNode),
}
