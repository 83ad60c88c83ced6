// Writes expressions (C11 6.5).
ghost use Rattle.std.specs.Prelude.{OnOk};
ghost use Rattle.qs_print.specs.Printed.{in_parentheses, printed_expr, printed_part, printed_shape};
ghost use Rattle.qs_print.specs.Printed.{printed_type_name};
ghost use Rattle.qs_print.specs.Words.{Puts};
ghost use Rattle.qs_syntax.specs.TreeOf.{expr_tree, shape_tree};
ghost use Rattle.qs_print.specs.Rows.{argument_row};
ghost use Rattle.qs_syntax.specs.Trees.{step};

use crate::levels::{ASSIGNMENT, CAST, CONDITIONAL, OR, POSTFIX, UNARY, level};
use crate::literals::{put_constant, put_text};
use crate::types::put_type_name;
use crate::words::{put_comma_unless, put_keyword, put_name, put_punctuator};
use qs_base::NoMemory;
use qs_syntax::{Expr, Shape, TypeName};
use qs_syntax_vocabulary::{Keyword, Punctuator, StepOperator};

/// Writes the name of a type in parentheses.
fn put_type_in_parentheses(out: &mut Vec<u8>, name: &TypeName) -> Result<(), NoMemory>
    ensures { OnOk result (Puts out.old (in_parentheses (printed_type_name name.now)) out.new) }
{
    put_punctuator(out, Punctuator::OpenParenthesis)?;
    put_type_name(out, name)?;
    put_punctuator(out, Punctuator::CloseParenthesis)
}

/// Writes an expression in parentheses.
#[cycle(put_expr)]
pub fn put_in_parentheses(out: &mut Vec<u8>, e: &Expr) -> Result<(), NoMemory>
    ensures { OnOk result (Puts out.old (in_parentheses (printed_expr (expr_tree e.now))) out.new) }
{
    put_punctuator(out, Punctuator::OpenParenthesis)?;
    put_expr(out, e)?;
    put_punctuator(out, Punctuator::CloseParenthesis)
}

/// Writes an expression where nothing may stand that binds more weakly than this level.
#[cycle(put_expr)]
pub fn put_part(out: &mut Vec<u8>, most: u32, e: &Expr) -> Result<(), NoMemory>
    ensures { OnOk result (Puts out.old (printed_part most (expr_tree e.now)) out.new) }
{
    if level(e) <= most {
        put_expr(out, e)
    } else {
        put_in_parentheses(out, e)
    }
}

/// Writes an expression.
#[cycle(put_expr)]
pub fn put_expr(out: &mut Vec<u8>, e: &Expr) -> Result<(), NoMemory>
    ensures { OnOk result (Puts out.old (printed_expr (expr_tree e.now)) out.new) }
{
    put_shape(out, &e.shape)
}

#[cycle(put_expr)]
fn put_step(out: &mut Vec<u8>, operator: StepOperator, a: &Expr) -> Result<(), NoMemory>
    ensures { OnOk result (Puts out.old (printed_shape (step operator (expr_tree a.now))) out.new) }
{
    if operator.stands_before() {
        put_punctuator(out, operator.punctuator())?;
        put_part(out, UNARY, a)
    } else {
        put_part(out, POSTFIX, a)?;
        put_punctuator(out, operator.punctuator())
    }
}

#[cycle(put_expr)]
fn put_shape(out: &mut Vec<u8>, shape: &Shape) -> Result<(), NoMemory>
    ensures { OnOk result (Puts out.old (printed_shape (shape_tree shape.now)) out.new) }
{
    match shape {
        Shape::Constant(value, is_unsigned) => put_constant(out, *value, *is_unsigned),
        Shape::Text(text) => put_text(out, text),
        Shape::Name(name) => put_name(out, name),
        Shape::Unary(operator, a) => {
            put_punctuator(out, operator.punctuator())?;
            put_part(out, CAST, a)
        }
        Shape::Step(operator, a) => put_step(out, *operator, a),
        Shape::Cast(type_name, a) => {
            put_type_in_parentheses(out, type_name)?;
            put_part(out, CAST, a)
        }
        Shape::SizeofType(type_name) => {
            put_keyword(out, Keyword::Sizeof)?;
            put_type_in_parentheses(out, type_name)
        }
        Shape::SizeofExpr(a) => {
            put_keyword(out, Keyword::Sizeof)?;
            put_part(out, UNARY, a)
        }
        Shape::Binary {
            operator,
            left,
            right,
        } => {
            let own = operator.precedence();
            put_part(out, own + CAST, left)?;
            put_punctuator(out, operator.punctuator())?;
            put_part(out, own + 1, right)
        }
        Shape::Assign {
            operator,
            left,
            right,
        } => {
            put_part(out, UNARY, left)?;
            put_punctuator(out, operator.punctuator())?;
            put_part(out, ASSIGNMENT, right)
        }
        Shape::Conditional {
            condition,
            then,
            otherwise,
        } => {
            put_part(out, OR, condition)?;
            put_punctuator(out, Punctuator::Question)?;
            put_expr(out, then)?;
            put_punctuator(out, Punctuator::Colon)?;
            put_part(out, CONDITIONAL, otherwise)
        }
        Shape::Comma(a, b) => {
            put_expr(out, a)?;
            put_punctuator(out, Punctuator::Comma)?;
            put_part(out, ASSIGNMENT, b)
        }
        Shape::Subscript(a, b) => {
            put_part(out, POSTFIX, a)?;
            put_punctuator(out, Punctuator::OpenBracket)?;
            put_expr(out, b)?;
            put_punctuator(out, Punctuator::CloseBracket)
        }
        Shape::Member {
            access,
            object,
            name,
        } => {
            put_part(out, POSTFIX, object)?;
            put_punctuator(out, access.punctuator())?;
            put_name(out, name)
        }
        Shape::Call(name, arguments) => {
            put_name(out, name)?;
            put_punctuator(out, Punctuator::OpenParenthesis)?;
            put_arguments(out, arguments)?;
            put_punctuator(out, Punctuator::CloseParenthesis)
        }
    }
}

#[cycle(put_expr)]
fn put_arguments(out: &mut Vec<u8>, arguments: &[Expr]) -> Result<(), NoMemory>
    ensures { OnOk result (Puts out.old (argument_row arguments.now) out.new) }
{
    let mut is_first = true;
    for e in arguments {
        put_comma_unless(out, is_first)?;
        put_part(out, ASSIGNMENT, e)?;
        is_first = false;
    }
    Ok(())
}
