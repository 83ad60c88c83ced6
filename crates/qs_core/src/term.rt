// Terms and conditions of expressions.

use qs_memory::{Scalar, Signedness};

/// What combines two terms.
#[derive(Clone, Copy)]
pub enum TermOperation {
    /// the sum
    Add,
    /// the difference
    Subtract,
    /// the product
    Multiply,
}

/// How two terms compare.
#[derive(Clone, Copy)]
pub enum TermComparison {
    /// the first is at most the second
    LessOrEqual,
    /// the first is below the second
    Less,
    /// they are equal
    Equal,
    /// they differ
    NotEqual,
}

/// A whole number without bound, which an expression of integer type has as its value.
#[cycle(core_term)]
pub enum CoreTerm {
    /// this number
    Number(i64),
    /// the value of the variable of this type with this number
    Variable(Scalar, u32),
    /// the value of the temporary of this type with this number
    Temporary(Scalar, u32),
    /// a sum, difference or product
    Combined(TermOperation, Box<TermPair>),
    /// a quotient, rounded down; the divisor is at least 1
    Divide(Box<CoreTerm>, u32),
    /// what is left in a division by this number: the term without this number times the quotient
    Remainder(Box<CoreTerm>, u32),
    /// modulo 2^32, into the range of `int` or of `unsigned`
    Wrapped(Signedness, Box<CoreTerm>),
}

/// Two terms.
#[cycle(core_term)]
pub struct TermPair {
    /// the left one
    pub left: CoreTerm,
    /// the right one
    pub right: CoreTerm,
}

/// What holds of the values of variables and temporaries where an expression isn't 0.
#[cycle(core_condition)]
pub enum CoreCondition {
    /// so two numbers stand to one another
    Compared(TermComparison, TermPair),
    /// it doesn't hold
    Not(Box<CoreCondition>),
    /// both hold
    And(Box<ConditionPair>),
    /// one holds
    Or(Box<ConditionPair>),
}

/// Two conditions.
#[cycle(core_condition)]
pub struct ConditionPair {
    /// the left one
    pub left: CoreCondition,
    /// the right one
    pub right: CoreCondition,
}

// Drops are written by hand, since a derived drop of a tree stands with all its cases at each place
// where a tree may be dropped.

impl Drop for CoreTerm {
    #[cycle(drop_term)]
    fn drop(self) {
        match self {
            CoreTerm::Number(_) => {}
            CoreTerm::Variable(_, _) => {}
            CoreTerm::Temporary(_, _) => {}
            CoreTerm::Combined(_, _) => {}
            CoreTerm::Divide(_, _) => {}
            CoreTerm::Remainder(_, _) => {}
            CoreTerm::Wrapped(_, _) => {}
        }
    }
}

impl Drop for TermPair {
    #[cycle(drop_term)]
    fn drop(self) {
        let TermPair { left: _, right: _ } = self;
    }
}

impl Drop for CoreCondition {
    #[cycle(drop_condition)]
    fn drop(self) {
        match self {
            CoreCondition::Compared(_, _) => {}
            CoreCondition::Not(_) => {}
            CoreCondition::And(_) => {}
            CoreCondition::Or(_) => {}
        }
    }
}

impl Drop for ConditionPair {
    #[cycle(drop_condition)]
    fn drop(self) {
        let ConditionPair { left: _, right: _ } = self;
    }
}
