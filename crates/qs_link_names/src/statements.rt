// Statements with their names as the program calls them (C11 6.8).
ghost use Rattle.std.specs.Prelude.{◌≡◌, IfOk, OnOk};
ghost use Rattle.qs_syntax.specs.TreeOf.{else_tree, start_tree, stmt_tree, stmts_tree};
ghost use Rattle.qs_link_names.specs.InternalOf.{internal_of};
ghost use Rattle.qs_link_names.specs.LinkedStatements as spec;

use crate::declarations::linked_declaration;
use crate::expressions::{linked_expr, linked_option};
use crate::linkage::Internal;
use qs_base::NoMemory;
use qs_syntax::{Expr, Start, Stmt};
use std::alloc::Global;

/// What a `for` begins with; its names are hidden behind it.
fn linked_start<'a>(
    alloc: Global,
    own: &mut Internal<'a>,
    from: &'a Start,
) -> Result<Start, NoMemory>
    ensures start { IfOk result (λ to. start_tree to ≡ spec.linked_start (internal_of own.old) (start_tree from.now)) }
    ensures behind { OnOk result (internal_of own.new ≡ spec.behind_start (internal_of own.old) (start_tree from.now)) }
{
    match from {
        Start::Nothing => Ok(Start::Nothing),
        Start::Expression(e) => Ok(Start::Expression(linked_expr(alloc, own, e)?)),
        Start::Declaration(d) => Ok(Start::Declaration(linked_declaration(alloc, own, d)?)),
    }
}

/// A statement, whose declarations are hidden behind it where it is one.
#[cycle(linked_stmt)]
fn linked_stmt<'a>(alloc: Global, own: &mut Internal<'a>, from: &'a Stmt) -> Result<Stmt, NoMemory>
    ensures statement { IfOk result (λ to. stmt_tree to ≡ spec.linked_stmt (internal_of own.old) (stmt_tree from.now)) }
    ensures behind { OnOk result (internal_of own.new ≡ spec.behind_statement (internal_of own.old) (stmt_tree from.now)) }
{
    match from {
        Stmt::Empty(node) => Ok(Stmt::Empty(*node)),
        Stmt::Expression(node, e) => Ok(Stmt::Expression(*node, linked_expr(alloc, own, e)?)),
        Stmt::Declaration(d) => Ok(Stmt::Declaration(linked_declaration(alloc, own, d)?)),
        Stmt::Block(items) => Ok(Stmt::Block(linked_stmts(alloc, own, items)?)),
        Stmt::Switch {
            node,
            operand,
            items,
        } => Ok(Stmt::Switch {
            node: *node,
            operand: linked_expr(alloc, own, operand)?,
            items: linked_stmts(alloc, own, items)?,
        }),
        Stmt::Case(node, e) => Ok(Stmt::Case(*node, linked_expr(alloc, own, e)?)),
        Stmt::Default(node) => Ok(Stmt::Default(*node)),
        Stmt::If {
            node,
            condition,
            then,
            otherwise,
        } => Ok(Stmt::If {
            node: *node,
            condition: linked_expr(alloc, own, condition)?,
            then: linked_boxed(alloc, own, then)?,
            otherwise: linked_else(alloc, own, otherwise)?,
        }),
        Stmt::While {
            node,
            condition,
            body,
        } => Ok(Stmt::While {
            node: *node,
            condition: linked_expr(alloc, own, condition)?,
            body: linked_boxed(alloc, own, body)?,
        }),
        Stmt::Do {
            node,
            body,
            condition,
        } => Ok(Stmt::Do {
            node: *node,
            body: linked_boxed(alloc, own, body)?,
            condition: linked_expr(alloc, own, condition)?,
        }),
        Stmt::For {
            node,
            start,
            condition,
            step,
            body,
        } => {
            let mut inner = own.inner(alloc)?;
            let start = linked_start(alloc, &mut inner, start)?;
            let condition = linked_option(alloc, &inner, condition)?;
            let step = linked_option(alloc, &inner, step)?;
            let body = linked_boxed(alloc, &inner, body)?;
            Ok(Stmt::For {
                node: *node,
                start,
                condition,
                step,
                body,
            })
        }
        Stmt::Break(node) => Ok(Stmt::Break(*node)),
        Stmt::Continue(node) => Ok(Stmt::Continue(*node)),
        Stmt::Return(node, e) => Ok(Stmt::Return(*node, linked_option(alloc, own, e)?)),
    }
}

/// A part of a statement: no declaration, but for the grammar one might hide its names in it alone.
#[cycle(linked_stmt)]
fn linked_boxed<'a>(
    alloc: Global,
    own: &Internal<'a>,
    from: &'a Stmt,
) -> Result<Box<Stmt>, NoMemory>
    ensures { IfOk result (λ to. stmt_tree to.value ≡ spec.linked_stmt (internal_of own.now) (stmt_tree from.now)) }
{
    let mut inner = own.inner(alloc)?;
    let to = linked_stmt(alloc, &mut inner, from)?;
    Ok(Box::new(alloc, to)?)
}

#[cycle(linked_stmt)]
fn linked_else<'a>(
    alloc: Global,
    own: &Internal<'a>,
    from: &'a Option<Box<Stmt>>,
) -> Result<Option<Box<Stmt>>, NoMemory>
    ensures { IfOk result (λ to. else_tree to ≡ spec.linked_else (internal_of own.now) (else_tree from.now)) }
{
    match from {
        None => Ok(None),
        Some(s) => Ok(Some(linked_boxed(alloc, own, s)?)),
    }
}

/// The statements of a block, in whose scope their declarations hide names.
#[cycle(linked_stmt)]
#[tactic(auto, using(crate::proofs::ListLaws::stmts_linked))]
pub fn linked_stmts<'a>(
    alloc: Global,
    own: &Internal<'a>,
    from: &'a [Stmt],
) -> Result<Vec<Stmt>, NoMemory>
    ensures { IfOk result (λ to. stmts_tree to.items ≡ spec.linked_stmts (internal_of own.now) (stmts_tree from.now)) }
{
    let mut inner = own.inner(alloc)?;
    let mut to = Vec::new(alloc);
    for s in from {
        to.push(linked_stmt(alloc, &mut inner, s)?)?;
    }
    Ok(to)
}
