// Copies of statements (C11 6.8).
ghost use Rattle.std.specs.Prelude.{◌≡◌, IfOk, map};
ghost use Rattle.qs_syntax.specs.TreeOf.{option_tree, start_tree, stmt_tree, else_tree};

use crate::declarations::copy_declaration;
use crate::expressions::copy_expr;
use qs_base::NoMemory;
use qs_syntax::{Expr, Start, Stmt};
use std::alloc::Global;

fn copy_option(alloc: Global, from: &Option<Expr>) -> Result<Option<Expr>, NoMemory>
    ensures { IfOk result (λ to. option_tree to ≡ option_tree from.now) }
{
    match from {
        None => Ok(None),
        Some(e) => Ok(Some(copy_expr(alloc, e)?)),
    }
}

fn copy_start(alloc: Global, from: &Start) -> Result<Start, NoMemory>
    ensures { IfOk result (λ to. start_tree to ≡ start_tree from.now) }
{
    match from {
        Start::Nothing => Ok(Start::Nothing),
        Start::Expression(e) => Ok(Start::Expression(copy_expr(alloc, e)?)),
        Start::Declaration(d) => Ok(Start::Declaration(copy_declaration(alloc, d)?)),
    }
}

#[cycle(copy_stmt)]
fn copy_stmt(alloc: Global, from: &Stmt) -> Result<Stmt, NoMemory>
    ensures { IfOk result (λ to. stmt_tree to ≡ stmt_tree from.now) }
{
    match from {
        Stmt::Empty(node) => Ok(Stmt::Empty(*node)),
        Stmt::Expression(node, e) => Ok(Stmt::Expression(*node, copy_expr(alloc, e)?)),
        Stmt::Declaration(d) => Ok(Stmt::Declaration(copy_declaration(alloc, d)?)),
        Stmt::Block(items) => Ok(Stmt::Block(copy_stmts(alloc, items)?)),
        Stmt::Switch {
            node,
            operand,
            items,
        } => Ok(Stmt::Switch {
            node: *node,
            operand: copy_expr(alloc, operand)?,
            items: copy_stmts(alloc, items)?,
        }),
        Stmt::Case(node, e) => Ok(Stmt::Case(*node, copy_expr(alloc, e)?)),
        Stmt::Default(node) => Ok(Stmt::Default(*node)),
        Stmt::If {
            node,
            condition,
            then,
            otherwise,
        } => Ok(Stmt::If {
            node: *node,
            condition: copy_expr(alloc, condition)?,
            then: copy_boxed(alloc, then)?,
            otherwise: copy_else(alloc, otherwise)?,
        }),
        Stmt::While {
            node,
            condition,
            body,
        } => Ok(Stmt::While {
            node: *node,
            condition: copy_expr(alloc, condition)?,
            body: copy_boxed(alloc, body)?,
        }),
        Stmt::Do {
            node,
            body,
            condition,
        } => Ok(Stmt::Do {
            node: *node,
            body: copy_boxed(alloc, body)?,
            condition: copy_expr(alloc, condition)?,
        }),
        Stmt::For {
            node,
            start,
            condition,
            step,
            body,
        } => Ok(Stmt::For {
            node: *node,
            start: copy_start(alloc, start)?,
            condition: copy_option(alloc, condition)?,
            step: copy_option(alloc, step)?,
            body: copy_boxed(alloc, body)?,
        }),
        Stmt::Break(node) => Ok(Stmt::Break(*node)),
        Stmt::Continue(node) => Ok(Stmt::Continue(*node)),
        Stmt::Return(node, e) => Ok(Stmt::Return(*node, copy_option(alloc, e)?)),
    }
}

#[cycle(copy_stmt)]
fn copy_boxed(alloc: Global, from: &Stmt) -> Result<Box<Stmt>, NoMemory>
    ensures { IfOk result (λ to. stmt_tree to.value ≡ stmt_tree from.now) }
{
    let to = copy_stmt(alloc, from)?;
    Ok(Box::new(alloc, to)?)
}

#[cycle(copy_stmt)]
fn copy_else(alloc: Global, from: &Option<Box<Stmt>>) -> Result<Option<Box<Stmt>>, NoMemory>
    ensures { IfOk result (λ to. else_tree to ≡ else_tree from.now) }
{
    match from {
        None => Ok(None),
        Some(s) => Ok(Some(copy_boxed(alloc, s)?)),
    }
}

/// Copies of statements, in their order, with the same numbers and tokens of their nodes.
#[cycle(copy_stmt)]
pub fn copy_stmts(alloc: Global, from: &[Stmt]) -> Result<Vec<Stmt>, NoMemory>
    ensures { IfOk result (λ to. map stmt_tree to.items ≡ map stmt_tree from.now) }
{
    let mut to = Vec::new(alloc);
    for s in from {
        to.push(copy_stmt(alloc, s)?)?;
    }
    Ok(to)
}
