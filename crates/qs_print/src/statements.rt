// Writes statements (C11 6.8).
ghost use Rattle.std.specs.Prelude.{OnOk, flat_map, map};
ghost use Rattle.qs_print.specs.Printed.{printed_else, printed_optional, printed_start};
ghost use Rattle.qs_print.specs.Printed.{printed_stmt, printed_jump, printed_case, printed_default};
ghost use Rattle.qs_print.specs.Words.{Puts};
ghost use Rattle.qs_syntax.specs.TreeOf.{else_tree, expr_tree, option_tree};
ghost use Rattle.qs_syntax.specs.TreeOf.{start_tree, stmt_tree, stmts_tree};
ghost use Rattle.qs_syntax.specs.Trees.{block};
ghost use Rattle.qs_print.specs.Rows.{for_head};

use crate::declarations::put_declaration;
use crate::expressions::{put_expr, put_in_parentheses, put_part};
use crate::levels::CONDITIONAL;
use crate::words::{put_keyword, put_punctuator};
use qs_base::NoMemory;
use qs_syntax::{Expr, Start, Stmt};
use qs_syntax_vocabulary::{Keyword, Punctuator};

fn put_optional(out: &mut Vec<u8>, e: &Option<Expr>) -> Result<(), NoMemory>
    ensures { OnOk result (Puts out.old (printed_optional (option_tree e.now)) out.new) }
{
    match e {
        None => Ok(()),
        Some(e) => put_expr(out, e),
    }
}

fn put_start(out: &mut Vec<u8>, start: &Start) -> Result<(), NoMemory>
    ensures { OnOk result (Puts out.old (printed_start (start_tree start.now)) out.new) }
{
    match start {
        Start::Nothing => put_punctuator(out, Punctuator::Semicolon),
        Start::Expression(e) => {
            put_expr(out, e)?;
            put_punctuator(out, Punctuator::Semicolon)
        }
        Start::Declaration(d) => put_declaration(out, d),
    }
}

/// Writes what stands between `for` and its body.
fn put_for_head(
    out: &mut Vec<u8>,
    start: &Start,
    e: &Option<Expr>,
    u: &Option<Expr>,
) -> Result<(), NoMemory>
    ensures { OnOk result (Puts out.old (for_head start.now e.now u.now) out.new) }
{
    put_punctuator(out, Punctuator::OpenParenthesis)?;
    put_start(out, start)?;
    put_optional(out, e)?;
    put_punctuator(out, Punctuator::Semicolon)?;
    put_optional(out, u)?;
    put_punctuator(out, Punctuator::CloseParenthesis)
}

fn put_jump(out: &mut Vec<u8>, keyword: Keyword) -> Result<(), NoMemory>
    ensures { OnOk result (Puts out.old (printed_jump keyword) out.new) }
{
    put_keyword(out, keyword)?;
    put_punctuator(out, Punctuator::Semicolon)
}

fn put_case(out: &mut Vec<u8>, e: &Expr) -> Result<(), NoMemory>
    ensures { OnOk result (Puts out.old (printed_case (expr_tree e.now)) out.new) }
{
    put_keyword(out, Keyword::Case)?;
    put_part(out, CONDITIONAL, e)?;
    put_punctuator(out, Punctuator::Colon)
}

fn put_default(out: &mut Vec<u8>) -> Result<(), NoMemory>
    ensures { OnOk result (Puts out.old printed_default out.new) }
{
    put_keyword(out, Keyword::Default)?;
    put_punctuator(out, Punctuator::Colon)
}

/// Writes a statement, a declaration of a block, or a label of a switch.
#[cycle(put_stmt)]
pub fn put_stmt(out: &mut Vec<u8>, s: &Stmt) -> Result<(), NoMemory>
    ensures { OnOk result (Puts out.old (printed_stmt (stmt_tree s.now)) out.new) }
{
    match s {
        Stmt::Empty(_) => put_punctuator(out, Punctuator::Semicolon),
        Stmt::Expression(_, e) => {
            put_expr(out, e)?;
            put_punctuator(out, Punctuator::Semicolon)
        }
        Stmt::Declaration(d) => put_declaration(out, d),
        Stmt::Block(items) => put_block(out, items),
        Stmt::Switch {
            node: _,
            operand,
            items,
        } => {
            put_keyword(out, Keyword::Switch)?;
            put_in_parentheses(out, operand)?;
            put_block(out, items)
        }
        Stmt::Case(_, e) => put_case(out, e),
        Stmt::Default(_) => put_default(out),
        Stmt::If {
            node: _,
            condition,
            then,
            otherwise,
        } => {
            put_keyword(out, Keyword::If)?;
            put_in_parentheses(out, condition)?;
            put_stmt(out, then)?;
            put_else(out, otherwise)
        }
        Stmt::While {
            node: _,
            condition,
            body,
        } => {
            put_keyword(out, Keyword::While)?;
            put_in_parentheses(out, condition)?;
            put_stmt(out, body)
        }
        Stmt::Do {
            node: _,
            body,
            condition,
        } => {
            put_keyword(out, Keyword::Do)?;
            put_stmt(out, body)?;
            put_keyword(out, Keyword::While)?;
            put_in_parentheses(out, condition)?;
            put_punctuator(out, Punctuator::Semicolon)
        }
        Stmt::For {
            node: _,
            start,
            condition,
            step,
            body,
        } => {
            put_keyword(out, Keyword::For)?;
            put_for_head(out, start, condition, step)?;
            put_stmt(out, body)
        }
        Stmt::Break(_) => put_jump(out, Keyword::Break),
        Stmt::Continue(_) => put_jump(out, Keyword::Continue),
        Stmt::Return(_, e) => {
            put_keyword(out, Keyword::Return)?;
            put_optional(out, e)?;
            put_punctuator(out, Punctuator::Semicolon)
        }
    }
}

#[cycle(put_stmt)]
fn put_else(out: &mut Vec<u8>, other: &Option<Box<Stmt>>) -> Result<(), NoMemory>
    ensures { OnOk result (Puts out.old (printed_else (else_tree other.now)) out.new) }
{
    match other {
        None => Ok(()),
        Some(s) => {
            put_keyword(out, Keyword::Else)?;
            put_stmt(out, s)
        }
    }
}

/// Writes a block with its braces.
#[cycle(put_stmt)]
pub fn put_block(out: &mut Vec<u8>, items: &[Stmt]) -> Result<(), NoMemory>
    ensures { OnOk result (Puts out.old (printed_stmt (block (stmts_tree items.now))) out.new) }
{
    put_punctuator(out, Punctuator::OpenBrace)?;
    put_stmts(out, items)?;
    put_punctuator(out, Punctuator::CloseBrace)
}

#[cycle(put_stmt)]
fn put_stmts(out: &mut Vec<u8>, items: &[Stmt]) -> Result<(), NoMemory>
    ensures { OnOk result (Puts out.old (flat_map printed_stmt (map stmt_tree items.now)) out.new) }
{
    for s in items {
        put_stmt(out, s)?;
    }
    Ok(())
}
