// Expressions (C11 6.5). In all functions at most `context.room` levels are left for the parts of
// what is read, and each answers the expression, how high its reading is, and what stands behind
// it. An operand that was read before comes with its height, and `start` is the place of its first
// token.
ghost use Rattle.std.specs.Prelude.{◌≡◌, ◌+◌, ◌≤◌, ◌∷◌, Ok, IfOk};
ghost use Rattle.qs_syntax_vocabulary.specs.declared.terminal.Terminal.TheVariants as terminals;
ghost use Rattle.qs_syntax.specs.TreeOf.{expr_tree};
ghost use Rattle.qs_parser_grammar.specs.Parse.{expect, texts_from, arguments, call_of, after_name};
ghost use Rattle.qs_parser_grammar.specs.Parse.{in_parentheses, primary, postfix, step_of};
ghost use Rattle.qs_parser_grammar.specs.Parse.{operator_of, beyond, size_at_limit, size_of, unary_of_all};
ghost use Rattle.qs_parser_grammar.specs.Parse.{cast_of, cast_or_unary, assignment, expression, part};
ghost use Rattle.qs_parser_grammar.specs.Operands.{right_operand};
ghost use Rattle.qs_parser_expressions.specs.View.{Gives, Reads, ReadsList, ReadsExpr, behind_of, boxed_expr};
ghost use Rattle.qs_parser_expressions.specs.View.{texts_of, form_of};
ghost use Rattle.qs_parser_expressions.specs.Readers.{with_parts, index_of, member_of, suffix, suffixes};
ghost use Rattle.qs_parser_expressions.specs.Readers.{operations, climb, after_or, after_operand};
ghost use Rattle.qs_parser_expressions.specs.Readers.{assignment_of, after_unary, commas};

use crate::context::Context;
use crate::halt::Halt;
use crate::heads::{
    access_at, assign_at, begins_cast, begins_one, expect, expect_any_name, is_punctuator,
    level_operator_at, place, starts, starts_suffix, starts_with, strip,
};
use crate::nodes;
use crate::types::type_name;
use qs_base::Name;
use qs_syntax::Expr;
use qs_syntax_vocabulary::{
    Access, AssignmentOperator, Keyword, Punctuator, StepOperator, Terminal, Text, UnaryOperator,
    WEAKEST,
};
use std::alloc::Global;

/// What an expression is read as.
#[derive(Clone, Copy)]
pub enum Form {
    /// An operand with suffixes (C11 6.5.2).
    Postfix,
    /// A unary expression (C11 6.5.3).
    Unary,
    /// Operators of the levels up to this between casts: 0 for a cast, 1 for `* / %`, up to
    /// `WEAKEST` for `||` (C11 6.5.4 to 6.5.14).
    Level(u8),
    /// A conditional expression (C11 6.5.15).
    Conditional,
    /// An assignment expression (C11 6.5.16).
    Assignment,
    /// An expression (C11 6.5.17).
    Expression,
}

/// The texts that stand side by side, the first given, joined.
#[tactic(auto, unfolding(qs_parser_grammar::specs::Parse::texts_from))]
fn texts_from<'a>(
    alloc: Global,
    first: &Text,
    tokens: &'a [Terminal],
) -> Result<(Text, &'a [Terminal]), Halt>
    ensures { Gives texts_of result (Ok (texts_from first.now tokens.now)) }
{
    let mut bytes = Vec::from_slice(alloc, first.bytes())?;
    let mut rest = tokens;
    while let [Terminal::Text(_, more), after @ ..] = rest {
        bytes.extend_from_slice(more.bytes())?;
        rest = after;
    }
    Ok((Text::new(bytes), rest))
}

/// An expression of this form that is at most `context.room` high, how high its reading is, and
/// what stands behind it.
#[cycle(parser)]
#[tactic(auto, using(crate::proofs::CodeExpressions::part_steps))]
pub fn part(
    context: Context,
    form: Form,
    tokens: &[Terminal],
) -> Result<(Expr, u32, &[Terminal]), Halt>
    ensures gives { ReadsExpr result (part context.room (form_of form) tokens.now) }
    ensures low { IfOk result (λ x. x.1 ≤ context.room) }
{
    if context.room == 0 {
        if begins_one(tokens) {
            return Err(Halt::TooDeep(tokens.len()));
        }
        return Err(Halt::Unexpected(tokens.len()));
    }
    expression(context.inner(), form, tokens)
}

/// An expression of this form.
#[cycle(parser)]
#[tactic(auto, unfolding(qs_parser_grammar::specs::Parse::expression))]
fn expression(
    context: Context,
    form: Form,
    tokens: &[Terminal],
) -> Result<(Expr, u32, &[Terminal]), Halt>
    ensures gives { ReadsExpr result (with_parts context expression (form_of form) tokens.now) }
    ensures low { IfOk result (λ x. x.1 ≤ context.room + 1) }
{
    match form {
        Form::Postfix => postfix(context, tokens),
        Form::Unary => unary(context, tokens),
        Form::Level(level) => {
            let (left, height, rest) = cast_or_unary(context, tokens)?;
            climb(context, level, place(tokens), left, height, rest)
        }
        Form::Conditional => {
            let (left, height, rest) = cast_or_unary(context, tokens)?;
            after_operand(context, place(tokens), left, height, rest)
        }
        Form::Assignment => assignment(context, tokens),
        Form::Expression => {
            let (left, height, rest) = assignment(context, tokens)?;
            commas(context, place(tokens), left, height, rest)
        }
    }
}

/// What is at most `context.room` high, in a box of its own.
#[cycle(parser)]
fn boxed(
    context: Context,
    form: Form,
    tokens: &[Terminal],
) -> Result<(Box<Expr>, u32, &[Terminal]), Halt>
    ensures gives { Reads boxed_expr result (part context.room (form_of form) tokens.now) }
    ensures low { IfOk result (λ x. x.1 ≤ context.room) }
{
    let (found, height, rest) = part(context, form, tokens)?;
    Ok((Box::new(context.alloc, found)?, height, rest))
}

/// The arguments of a call, and the parenthesis behind them.
#[cycle(parser)]
#[tactic(auto, using(crate::proofs::CodeExpressions::argument_steps))]
fn arguments(context: Context, tokens: &[Terminal]) -> Result<(Vec<Expr>, u32, &[Terminal]), Halt>
    ensures gives { ReadsList expr_tree result (with_parts context arguments) tokens.now }
    ensures low { IfOk result (λ x. x.1 ≤ context.room) }
{
    let mut items = Vec::new(context.alloc);
    let mut height: u32 = 0;
    let mut rest = tokens;
    for _ in 0..tokens.len() {
        let (item, high, after) = part(context, Form::Assignment, rest)?;
        items.push(item)?;
        height = height.max(high);
        if let Some(behind) = strip(Punctuator::CloseParenthesis, after) {
            return Ok((items, height, behind));
        }
        rest = expect(Punctuator::Comma, after)?;
    }
    Err(Halt::Unexpected(rest.len()))
}

/// A call, behind its opening parenthesis.
#[cycle(parser)]
fn call_of(
    context: Context,
    at: u32,
    name: Name,
    tokens: &[Terminal],
) -> Result<(Expr, u32, &[Terminal]), Halt>
    ensures gives { ReadsExpr result (with_parts context call_of at name tokens.now) }
    ensures low { IfOk result (λ x. x.1 ≤ context.room + 1) }
{
    if let Some(rest) = strip(Punctuator::CloseParenthesis, tokens) {
        return Ok((nodes::call(at, name, Vec::new(context.alloc)), 1, rest));
    }
    let (items, height, rest) = arguments(context, tokens)?;
    Ok((nodes::call(at, name, items), height + 1, rest))
}

/// What a name begins: a call, or the name alone.
#[cycle(parser)]
fn after_name(
    context: Context,
    at: u32,
    name: Name,
    tokens: &[Terminal],
) -> Result<(Expr, u32, &[Terminal]), Halt>
    ensures gives { ReadsExpr result (with_parts context after_name at name tokens.now) }
    ensures low { IfOk result (λ x. x.1 ≤ context.room + 1) }
{
    if let Some(rest) = strip(Punctuator::OpenParenthesis, tokens) {
        return call_of(context, at, name, rest);
    }
    Ok((nodes::name(at, name), 1, tokens))
}

/// This expression, where the punctuator stands behind it, and what follows.
pub fn followed(
    inner: Expr,
    punctuator: Punctuator,
    tokens: &[Terminal],
) -> Result<(Expr, &[Terminal]), Halt>
    ensures gives { Gives behind_of result (expect punctuator tokens.now) }
    ensures same { IfOk result (λ x. x.0 ≡ inner) }
{
    let rest = expect(punctuator, tokens)?;
    Ok((inner, rest))
}

/// An expression in parentheses, behind the first.
#[cycle(parser)]
fn in_parentheses(context: Context, tokens: &[Terminal]) -> Result<(Expr, u32, &[Terminal]), Halt>
    ensures gives { ReadsExpr result (with_parts context in_parentheses tokens.now) }
    ensures low { IfOk result (λ x. x.1 ≤ context.room + 1) }
{
    let (inner, height, rest) = part(context, Form::Expression, tokens)?;
    let (inner, rest) = followed(inner, Punctuator::CloseParenthesis, rest)?;
    Ok((inner, height + 1, rest))
}

/// An operand without suffixes (C11 6.5.1), or a call.
#[cycle(parser)]
#[tactic(auto, unfolding(qs_parser_grammar::specs::Parse::primary))]
fn primary(context: Context, tokens: &[Terminal]) -> Result<(Expr, u32, &[Terminal]), Halt>
    ensures gives { ReadsExpr result (with_parts context primary tokens.now) }
    ensures low { IfOk result (λ x. x.1 ≤ context.room + 1) }
{
    match tokens {
        [Terminal::Name(at, name), rest @ ..] => {
            after_name(context, *at, name.copy(context.alloc)?, rest)
        }
        [
            Terminal::Constant {
                at,
                value,
                is_unsigned,
            },
            rest @ ..,
        ] => Ok((nodes::constant(*at, *value, *is_unsigned), 1, rest)),
        [Terminal::Text(at, first), rest @ ..] => {
            let (text, rest) = texts_from(context.alloc, first, rest)?;
            Ok((nodes::text(*at, text), 1, rest))
        }
        [Terminal::Punctuator(..), rest @ ..] if starts(Punctuator::OpenParenthesis, tokens) => {
            if context.room == 0 {
                return Err(Halt::TooDeep(tokens.len()));
            }
            in_parentheses(context, rest)
        }
        _ => Err(Halt::Unexpected(tokens.len())),
    }
}

/// An element of an array, behind `[`.
#[cycle(parser)]
fn index_of(
    context: Context,
    start: u32,
    array: Box<Expr>,
    height: u32,
    tokens: &[Terminal],
) -> Result<(Expr, u32, &[Terminal]), Halt>
    requires low { height ≤ context.room }
    ensures gives { ReadsExpr result (index_of context start array height tokens.now) }
    ensures low { IfOk result (λ x. x.1 ≤ context.room + 1) }
{
    let (at, high, rest) = boxed(context, Form::Expression, tokens)?;
    let rest = expect(Punctuator::CloseBracket, rest)?;
    Ok((
        nodes::subscript(start, array, at),
        height.max(high) + 1,
        rest,
    ))
}

/// A member, behind `.` or `->`.
fn member_of(
    context: Context,
    start: u32,
    object: Box<Expr>,
    height: u32,
    access: Access,
    tokens: &[Terminal],
) -> Result<(Expr, u32, &[Terminal]), Halt>
    requires low { height ≤ context.room }
    ensures gives { ReadsExpr result (member_of context start object height access tokens.now) }
    ensures low { IfOk result (λ x. x.1 ≤ context.room + 1) }
{
    let (_at, name, rest) = expect_any_name(context.alloc, tokens)?;
    Ok((nodes::member(start, access, object, name), height + 1, rest))
}

/// What the first token does with an operand, where it begins a suffix.
#[cycle(parser)]
fn suffix(
    context: Context,
    start: u32,
    left: Box<Expr>,
    height: u32,
    tokens: &[Terminal],
) -> Result<(Expr, u32, &[Terminal]), Halt>
    requires low { height ≤ context.room }
    ensures gives { ReadsExpr result (suffix context start left height tokens.now) }
    ensures low { IfOk result (λ x. x.1 ≤ context.room + 1) }
{
    let [first, rest @ ..] = tokens else {
        return Err(Halt::Unexpected(0));
    };
    if is_punctuator(Punctuator::OpenBracket, first) {
        return index_of(context, start, left, height, rest);
    }
    if is_punctuator(Punctuator::Increment, first) {
        let node = nodes::step(start, StepOperator::IncrementAfter, left);
        return Ok((node, height + 1, rest));
    }
    if is_punctuator(Punctuator::Decrement, first) {
        let node = nodes::step(start, StepOperator::DecrementAfter, left);
        return Ok((node, height + 1, rest));
    }
    match access_at(tokens) {
        None => Err(Halt::Unexpected(rest.len())),
        Some(access) => member_of(context, start, left, height, access, rest),
    }
}

/// An operand and the suffixes behind it (C11 6.5.2).
#[cycle(parser)]
#[tactic(auto, using(crate::proofs::CodeExpressions::suffix_steps))]
fn suffixes(
    context: Context,
    start: u32,
    left: Expr,
    height: u32,
    tokens: &[Terminal],
) -> Result<(Expr, u32, &[Terminal]), Halt>
    requires low { height ≤ context.room + 1 }
    ensures gives { ReadsExpr result (suffixes context start left height tokens.now) }
    ensures low { IfOk result (λ x. x.1 ≤ context.room + 1) }
{
    let mut left = left;
    let mut height = height;
    let mut rest = tokens;
    for _ in 0..tokens.len() {
        if !starts_suffix(rest) {
            return Ok((left, height, rest));
        }
        let operand = Box::new(context.alloc, left)?;
        if height > u32::from(context.room) {
            return Err(Halt::TooDeep(rest.len()));
        }
        let (node, high, after) = suffix(context, start, operand, height, rest)?;
        left = node;
        height = high;
        rest = after;
    }
    Ok((left, height, rest))
}

/// An operand with its suffixes (C11 6.5.2).
#[cycle(parser)]
fn postfix(context: Context, tokens: &[Terminal]) -> Result<(Expr, u32, &[Terminal]), Halt>
    ensures gives { ReadsExpr result (with_parts context postfix tokens.now) }
    ensures low { IfOk result (λ x. x.1 ≤ context.room + 1) }
{
    let (operand, height, rest) = primary(context, tokens)?;
    suffixes(context, place(tokens), operand, height, rest)
}

/// A step by one, behind its operator (C11 6.5.3.1).
#[cycle(parser)]
fn step_of(
    context: Context,
    at: u32,
    operator: StepOperator,
    tokens: &[Terminal],
) -> Result<(Expr, u32, &[Terminal]), Halt>
    ensures gives { ReadsExpr result (with_parts context step_of at operator tokens.now) }
    ensures low { IfOk result (λ x. x.1 ≤ context.room + 1) }
{
    let (operand, height, rest) = boxed(context, Form::Unary, tokens)?;
    Ok((nodes::step(at, operator, operand), height + 1, rest))
}

/// An operand, behind its unary operator (C11 6.5.3.2, 6.5.3.3).
#[cycle(parser)]
fn operator_of(
    context: Context,
    at: u32,
    operator: UnaryOperator,
    tokens: &[Terminal],
) -> Result<(Expr, u32, &[Terminal]), Halt>
    ensures gives { ReadsExpr result (with_parts context operator_of at operator tokens.now) }
    ensures low { IfOk result (λ x. x.1 ≤ context.room + 1) }
{
    let (operand, height, rest) = boxed(context, Form::Level(0), tokens)?;
    Ok((nodes::unary(at, operator, operand), height + 1, rest))
}

/// Where no level is left for a part, an expression is too deep, and nothing else may stand here.
fn beyond(tokens: &[Terminal]) -> Result<(Expr, u32, &[Terminal]), Halt>
    ensures gives { ReadsExpr result (beyond tokens.now) }
    ensures low { IfOk result (λ x. x.1 ≤ 0) }
{
    if begins_one(tokens) {
        return Err(Halt::TooDeep(tokens.len()));
    }
    Err(Halt::Unexpected(tokens.len()))
}

/// Behind `sizeof`, where what stands in parentheses would be too deep and no type does.
fn size_at_limit(tokens: &[Terminal]) -> Result<(Expr, u32, &[Terminal]), Halt>
    ensures gives { ReadsExpr result (size_at_limit tokens.now) }
    ensures low { IfOk result (λ x. x.1 ≤ 0) }
{
    beyond(expect(Punctuator::OpenParenthesis, tokens)?)
}

/// The operand of `sizeof`: a type in parentheses, or an expression (C11 6.5.3.4).
#[cycle(parser)]
fn size_of(context: Context, at: u32, tokens: &[Terminal]) -> Result<(Expr, u32, &[Terminal]), Halt>
    ensures gives { ReadsExpr result (with_parts context size_of at tokens.now) }
    ensures low { IfOk result (λ x. x.1 ≤ context.room + 1) }
{
    if begins_cast(tokens) {
        let rest = expect(Punctuator::OpenParenthesis, tokens)?;
        let (name, rest) = type_name(context.alloc, rest)?;
        let rest = expect(Punctuator::CloseParenthesis, rest)?;
        return Ok((nodes::sizeof_type(at, name), 1, rest));
    }
    if context.room <= 1 && starts(Punctuator::OpenParenthesis, tokens) {
        return size_at_limit(tokens);
    }
    let (operand, height, rest) = boxed(context, Form::Unary, tokens)?;
    Ok((nodes::sizeof_expr(at, operand), height + 1, rest))
}

/// A unary expression whose first token is a punctuator.
#[cycle(parser)]
#[tactic(auto, unfolding(qs_parser_grammar::specs::Parse::unary_of_all))]
fn unary_at_punctuator<'a>(
    context: Context,
    at: u32,
    punctuator: Punctuator,
    tokens: &'a [Terminal],
    rest: &'a [Terminal],
) -> Result<(Expr, u32, &'a [Terminal]), Halt>
    requires first { tokens.now ≡ terminals.Punctuator at punctuator ∷ rest.now }
    ensures gives { ReadsExpr result (with_parts context unary_of_all tokens.now) }
    ensures low { IfOk result (λ x. x.1 ≤ context.room + 1) }
{
    let is_increment = starts(Punctuator::Increment, tokens);
    let is_decrement = starts(Punctuator::Decrement, tokens);
    let operator = UnaryOperator::of(punctuator);
    if !is_increment && !is_decrement && operator.is_none() {
        return postfix(context, tokens);
    }
    if context.room == 0 {
        return Err(Halt::TooDeep(tokens.len()));
    }
    if is_increment {
        return step_of(context, at, StepOperator::IncrementBefore, rest);
    }
    if is_decrement {
        return step_of(context, at, StepOperator::DecrementBefore, rest);
    }
    match operator {
        Some(operator) => operator_of(context, at, operator, rest),
        None => postfix(context, tokens),
    }
}

/// A unary expression (C11 6.5.3).
#[cycle(parser)]
#[tactic(auto, unfolding(qs_parser_grammar::specs::Parse::unary_of_all))]
fn unary(context: Context, tokens: &[Terminal]) -> Result<(Expr, u32, &[Terminal]), Halt>
    ensures gives { ReadsExpr result (with_parts context unary_of_all tokens.now) }
    ensures low { IfOk result (λ x. x.1 ≤ context.room + 1) }
{
    match tokens {
        [] => Err(Halt::Unexpected(0)),
        [Terminal::Keyword(at, _), rest @ ..] => {
            if !starts_with(Keyword::Sizeof, tokens) {
                return Err(Halt::Unexpected(tokens.len()));
            }
            size_of(context, *at, rest)
        }
        [Terminal::Punctuator(at, punctuator), rest @ ..] => unary_at_punctuator(
            context,
            *at,
            *punctuator,
            tokens,
            rest,
        ),
        _ => postfix(context, tokens),
    }
}

/// A cast, behind its opening parenthesis (C11 6.5.4).
#[cycle(parser)]
fn cast_of(context: Context, at: u32, tokens: &[Terminal]) -> Result<(Expr, u32, &[Terminal]), Halt>
    ensures gives { ReadsExpr result (with_parts context cast_of at tokens.now) }
    ensures low { IfOk result (λ x. x.1 ≤ context.room + 1) }
{
    let (to, rest) = type_name(context.alloc, tokens)?;
    let rest = expect(Punctuator::CloseParenthesis, rest)?;
    let (operand, height, rest) = boxed(context, Form::Level(0), rest)?;
    Ok((nodes::cast(at, to, operand), height + 1, rest))
}

/// A cast or a unary expression (C11 6.5.4).
#[cycle(parser)]
fn cast_or_unary(context: Context, tokens: &[Terminal]) -> Result<(Expr, u32, &[Terminal]), Halt>
    ensures gives { ReadsExpr result (with_parts context cast_or_unary tokens.now) }
    ensures low { IfOk result (λ x. x.1 ≤ context.room + 1) }
{
    if !begins_cast(tokens) {
        return unary(context, tokens);
    }
    if context.room == 0 {
        return Err(Halt::TooDeep(tokens.len()));
    }
    let rest = expect(Punctuator::OpenParenthesis, tokens)?;
    cast_of(context, place(tokens), rest)
}

/// The right operand of the operator that is the first token.
#[cycle(parser)]
fn right_operand(
    context: Context,
    level: u8,
    tokens: &[Terminal],
) -> Result<(Expr, u32, &[Terminal]), Halt>
    ensures gives { ReadsExpr result (right_operand (part context.room) level tokens.now) }
    ensures low { IfOk result (λ x. x.1 ≤ context.room) }
{
    match tokens {
        [] => Err(Halt::Unexpected(0)),
        [_, rest @ ..] => part(context, Form::Level(level), rest),
    }
}

/// The operators of the level behind this one, and their right operands.
#[cycle(parser)]
#[tactic(auto, using(crate::proofs::CodeOperations::operation_steps))]
fn operations(
    context: Context,
    level: u8,
    start: u32,
    left: Expr,
    height: u32,
    tokens: &[Terminal],
) -> Result<(Expr, u32, &[Terminal]), Halt>
    requires low { height ≤ context.room + 1 }
    ensures gives { ReadsExpr result (operations context level start left height tokens.now) }
    ensures low { IfOk result (λ x. x.1 ≤ context.room + 1) }
{
    let mut left = left;
    let mut height = height;
    let mut rest = tokens;
    for _ in 0..tokens.len() {
        let Some(operator) = level_operator_at(level, rest) else {
            return Ok((left, height, rest));
        };
        let operand = Box::new(context.alloc, left)?;
        if height > u32::from(context.room) {
            return Err(Halt::TooDeep(rest.len()));
        }
        let (right, high, after) = right_operand(context, level, rest)?;
        let right = Box::new(context.alloc, right)?;
        left = nodes::binary(start, operator, operand, right);
        height = height.max(high) + 1;
        rest = after;
    }
    Ok((left, height, rest))
}

/// The operators of the levels up to this, behind an operand.
#[cycle(parser)]
#[tactic(auto, unfolding(qs_parser_grammar::specs::Parse::climb))]
fn climb(
    context: Context,
    level: u8,
    start: u32,
    left: Expr,
    height: u32,
    tokens: &[Terminal],
) -> Result<(Expr, u32, &[Terminal]), Halt>
    requires low { height ≤ context.room + 1 }
    ensures gives { ReadsExpr result (climb context level start left height tokens.now) }
    ensures low { IfOk result (λ x. x.1 ≤ context.room + 1) }
{
    if level == 0 {
        return Ok((left, height, tokens));
    }
    let (left, height, rest) = climb(context, level - 1, start, left, height, tokens)?;
    operations(context, level - 1, start, left, height, rest)
}

/// What stands behind a condition: `?` and two operands, or nothing (C11 6.5.15).
#[cycle(parser)]
fn after_or(
    context: Context,
    start: u32,
    condition: Expr,
    height: u32,
    tokens: &[Terminal],
) -> Result<(Expr, u32, &[Terminal]), Halt>
    requires low { height ≤ context.room + 1 }
    ensures gives { ReadsExpr result (after_or context start condition height tokens.now) }
    ensures low { IfOk result (λ x. x.1 ≤ context.room + 1) }
{
    let Some(rest) = strip(Punctuator::Question, tokens) else {
        return Ok((condition, height, tokens));
    };
    let condition = Box::new(context.alloc, condition)?;
    if height > u32::from(context.room) {
        return Err(Halt::TooDeep(tokens.len()));
    }
    let (yes, yes_high, rest) = boxed(context, Form::Expression, rest)?;
    let rest = expect(Punctuator::Colon, rest)?;
    let (no, no_high, rest) = boxed(context, Form::Conditional, rest)?;
    let node = nodes::conditional(start, condition, yes, no);
    Ok((node, height.max(yes_high.max(no_high)) + 1, rest))
}

/// What stands behind an operand that is no left side of an assignment.
#[cycle(parser)]
fn after_operand(
    context: Context,
    start: u32,
    left: Expr,
    height: u32,
    tokens: &[Terminal],
) -> Result<(Expr, u32, &[Terminal]), Halt>
    requires low { height ≤ context.room + 1 }
    ensures gives { ReadsExpr result (after_operand context start left height tokens.now) }
    ensures low { IfOk result (λ x. x.1 ≤ context.room + 1) }
{
    let (left, height, rest) = climb(context, WEAKEST as u8, start, left, height, tokens)?;
    after_or(context, start, left, height, rest)
}

/// What stands behind an operand: this assignment and its right side, or operators.
#[cycle(parser)]
fn assignment_of(
    context: Context,
    start: u32,
    left: Expr,
    height: u32,
    operator: Option<AssignmentOperator>,
    tokens: &[Terminal],
) -> Result<(Expr, u32, &[Terminal]), Halt>
    requires low { height ≤ context.room + 1 }
    ensures gives { ReadsExpr result (assignment_of context start left height operator tokens.now) }
    ensures low { IfOk result (λ x. x.1 ≤ context.room + 1) }
{
    let Some(operator) = operator else {
        return after_operand(context, start, left, height, tokens);
    };
    let [_, rest @ ..] = tokens else {
        return Ok((left, height, tokens));
    };
    let left = Box::new(context.alloc, left)?;
    if height > u32::from(context.room) {
        return Err(Halt::TooDeep(tokens.len()));
    }
    let (right, high, rest) = boxed(context, Form::Assignment, rest)?;
    let node = nodes::assign(start, operator, left, right);
    Ok((node, height.max(high) + 1, rest))
}

/// What stands behind an operand that may be the left side of an assignment.
#[cycle(parser)]
fn after_unary(
    context: Context,
    start: u32,
    left: Expr,
    height: u32,
    tokens: &[Terminal],
) -> Result<(Expr, u32, &[Terminal]), Halt>
    requires low { height ≤ context.room + 1 }
    ensures gives { ReadsExpr result (after_unary context start left height tokens.now) }
    ensures low { IfOk result (λ x. x.1 ≤ context.room + 1) }
{
    assignment_of(context, start, left, height, assign_at(tokens), tokens)
}

/// An assignment expression (C11 6.5.16).
#[cycle(parser)]
fn assignment(context: Context, tokens: &[Terminal]) -> Result<(Expr, u32, &[Terminal]), Halt>
    ensures gives { ReadsExpr result (with_parts context assignment tokens.now) }
    ensures low { IfOk result (λ x. x.1 ≤ context.room + 1) }
{
    if begins_cast(tokens) {
        let (left, height, rest) = cast_or_unary(context, tokens)?;
        return after_operand(context, place(tokens), left, height, rest);
    }
    let (left, height, rest) = unary(context, tokens)?;
    after_unary(context, place(tokens), left, height, rest)
}

/// The operands behind commas (C11 6.5.17).
#[cycle(parser)]
#[tactic(auto, using(crate::proofs::CodeExpressions::comma_steps))]
fn commas(
    context: Context,
    start: u32,
    left: Expr,
    height: u32,
    tokens: &[Terminal],
) -> Result<(Expr, u32, &[Terminal]), Halt>
    requires low { height ≤ context.room + 1 }
    ensures gives { ReadsExpr result (commas context start left height tokens.now) }
    ensures low { IfOk result (λ x. x.1 ≤ context.room + 1) }
{
    let mut left = left;
    let mut height = height;
    let mut rest = tokens;
    for _ in 0..tokens.len() {
        let Some(behind) = strip(Punctuator::Comma, rest) else {
            return Ok((left, height, rest));
        };
        let operand = Box::new(context.alloc, left)?;
        if height > u32::from(context.room) {
            return Err(Halt::TooDeep(rest.len()));
        }
        let (right, high, after) = boxed(context, Form::Assignment, behind)?;
        left = nodes::comma(start, operand, right);
        height = height.max(high) + 1;
        rest = after;
    }
    Ok((left, height, rest))
}
