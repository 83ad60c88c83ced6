// Statements of core.

use crate::expressions::CoreExpr;
use crate::labels::CoreLabel;
use crate::numbers::Target;
use qs_calls::Callee;
use qs_memory::{Blank, Scalar};

/// A statement.
#[cycle(core_stmt)]
pub enum CoreStmt {
    /// nothing
    Skip,
    /// one after the other
    Seq(Vec<CoreStmt>),
    /// gives a variable or a temporary the value
    Assign(Target, CoreExpr),
    /// stores, as this type, where the first points to, the value of the second
    Store(Scalar, CoreExpr, CoreExpr),
    /// copies so many bytes, aligned like this, to where the first points to, from where the second
    /// does
    Copy {
        size: u32,
        alignment: u32,
        to: CoreExpr,
        from: CoreExpr,
    },
    /// fills the object that the pointer points to
    Fill(Blank, CoreExpr),
    /// calls with these arguments, and puts the result into this temporary
    Call(Option<u32>, Callee, Vec<CoreExpr>),
    /// the first where the expression isn't 0, else the second
    If(CoreExpr, Box<CoreStmt>, Box<CoreStmt>),
    /// the first, its body, then the second, its step, again and again
    Loop(Box<CoreStmt>, Box<CoreStmt>),
    /// the statements, its parts, from the one before which the first case of the expression's value
    /// stands, or else `default`; nothing where neither does
    Switch(CoreExpr, Vec<CoreLabel>, Vec<CoreStmt>),
    /// ends the innermost loop or switch
    Break,
    /// goes to the step of the innermost loop
    Continue,
    /// ends the function, with this result
    Return(Option<CoreExpr>),
}

// By hand, as the drops of expressions.
impl Drop for CoreStmt {
    #[cycle(drop_stmt)]
    fn drop(self) {
        match self {
            CoreStmt::Skip => {}
            CoreStmt::Seq(_) => {}
            CoreStmt::Assign(_, _) => {}
            CoreStmt::Store(_, _, _) => {}
            CoreStmt::Copy {
                size: _,
                alignment: _,
                to: _,
                from: _,
            } => {}
            CoreStmt::Fill(_, _) => {}
            CoreStmt::Call(_, _, _) => {}
            CoreStmt::If(_, _, _) => {}
            CoreStmt::Loop(_, _) => {}
            CoreStmt::Switch(_, _, _) => {}
            CoreStmt::Break => {}
            CoreStmt::Continue => {}
            CoreStmt::Return(_) => {}
        }
    }
}
