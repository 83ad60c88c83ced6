//! The words of the language: its punctuators and operators, and its tokens (C11 6.4).
#![tactic(auto)]

mod operators;
mod punctuator;
mod terminal;
mod text;
mod tokens;

pub use operators::{
    ASSIGNMENT_PRECEDENCE, Access, AssignmentOperator, BinaryOperator, COMMA_PRECEDENCE,
    CONDITIONAL_PRECEDENCE, StepOperator, UnaryOperator, WEAKEST,
};
pub use punctuator::Punctuator;
pub use qs_base::Keyword;
pub use terminal::Terminal;
pub use text::Text;
pub use tokens::{Token, TokenKind};
