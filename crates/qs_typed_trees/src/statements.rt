// Statements of the typed tree (C11 6.8).

use crate::expressions::{Conversion, Effect, Expression};

/// A statement.
#[cycle(statement)]
pub enum Statement {
    /// an expression, or a declaration in a block (C11 6.8.3)
    Evaluate(Effect),
    /// a block (C11 6.8.2)
    Block(Vec<Statement>),
    /// `if` (C11 6.8.4.1)
    Branch {
        /// the condition
        condition: Expression,
        /// what is done where it is met
        then: Box<Statement>,
        /// what is done where it is not met; without `else` it evaluates nothing
        otherwise: Box<Statement>,
    },
    /// `switch`; its labels stand among its items (C11 6.8.4.2)
    Switch {
        /// what happens to the operand's value: it is promoted
        promotion: Conversion,
        /// the operand
        operand: Expression,
        /// what stands between the braces
        items: Vec<Statement>,
    },
    /// `case`, with its value converted to the promoted type of the operand (C11 6.8.4.2p5)
    Case(u32),
    /// `default`
    Default,
    /// `while` (C11 6.8.5.1)
    WhileLoop(Expression, Box<Statement>),
    /// `do` (C11 6.8.5.2)
    DoLoop(Box<Statement>, Expression),
    /// `for`; without a condition it goes on for ever (C11 6.8.5.3)
    ForLoop {
        /// what is done before the loop
        start: Effect,
        /// the condition
        condition: Option<Expression>,
        /// what is done behind each turn
        step: Effect,
        /// the body
        body: Box<Statement>,
    },
    /// `break` (C11 6.8.6.3)
    Break,
    /// `continue` (C11 6.8.6.2)
    Continue,
    /// `return` with a value (C11 6.8.6.4)
    Return(Conversion, Expression),
    /// `return` without one
    ReturnNothing,
}

// By hand, as for expressions.
impl Drop for Statement {
    #[cycle(drop_statement)]
    fn drop(self) {
        match self {
            Statement::Evaluate(_) => {}
            Statement::Block(_) => {}
            Statement::Branch {
                condition: _,
                then: _,
                otherwise: _,
            } => {}
            Statement::Switch {
                promotion: _,
                operand: _,
                items: _,
            } => {}
            Statement::Case(_) => {}
            Statement::Default => {}
            Statement::WhileLoop(_, _) => {}
            Statement::DoLoop(_, _) => {}
            Statement::ForLoop {
                start: _,
                condition: _,
                step: _,
                body: _,
            } => {}
            Statement::Break => {}
            Statement::Continue => {}
            Statement::Return(_, _) => {}
            Statement::ReturnNothing => {}
        }
    }
}
