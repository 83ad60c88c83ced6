// Statements (C11 6.8). In all functions at most `context.room` levels are left for the parts of a
// node, and each answers what is read, how high it is, and what stands behind it. `at` is the place
// of a first token.
ghost use Rattle.std.specs.Prelude.{◌≡◌, ◌+◌, ◌<◌, ◌≤◌, ◌∷◌, IfOk};
ghost use Rattle.qs_syntax.specs.TreeOf.{expr_tree, option_tree, start_tree, stmt_tree};
ghost use Rattle.qs_parser_grammar.specs.ParseStatements.{optional, condition, start_of, begins_statement};
ghost use Rattle.qs_parser_grammar.specs.ParseStatements.{begins_label, case_of, default_of};
ghost use Rattle.qs_parser_grammar.specs.ParseStatements.{after_switch, ends_switch, switch_block};
ghost use Rattle.qs_parser_grammar.specs.ParseStatements.{item, items, in_block, otherwise, after_if};
ghost use Rattle.qs_parser_grammar.specs.ParseStatements.{after_while, expect_while, after_do, after_for};
ghost use Rattle.qs_parser_grammar.specs.ParseStatements.{after_return, running, statement_at, statement};
ghost use Rattle.qs_parser_expressions.specs.View.{Gives, Reads, ReadsList, listed, rest_of};
ghost use Rattle.qs_parser.specs.UnitView.{boxed_stmt, second_tree};
ghost use Rattle.qs_parser_expressions.specs.Heads.{is_nesting};
ghost use Rattle.qs_parser.specs.UnitReaders.{with_statements, with_blocks, switch_item, switch_items};
ghost use Rattle.qs_parser.specs.UnitReaders.{plain_statement, keyword_statement};
ghost use Rattle.qs_parser.specs.Turns.{step_tree, turn_tree, step_and_body, turn_of};

use crate::declarations::declaration_within;
use crate::statement_nodes as nodes;
use qs_parser_expressions::{
    Context, Form, Halt, begins_one, begins_type, expect, followed, is_keyword, is_punctuator,
    part, place, starts, starts_with, strip,
};
use qs_syntax::{Expr, Start, Stmt};
use qs_syntax_vocabulary::{Keyword, Punctuator, Terminal};

/// An expression, if there is one, and the punctuator behind it.
fn optional(
    context: Context,
    punctuator: Punctuator,
    tokens: &[Terminal],
) -> Result<(Option<Expr>, u32, &[Terminal]), Halt>
    ensures gives { Reads option_tree result (optional context.room punctuator tokens.now) }
    ensures low { IfOk result (λ x. x.1 ≤ context.room) }
{
    if let Some(rest) = strip(punctuator, tokens) {
        return Ok((None, 0, rest));
    }
    let (expression, height, rest) = part(context, Form::Expression, tokens)?;
    let (expression, rest) = followed(expression, punctuator, rest)?;
    Ok((Some(expression), height, rest))
}

/// An expression in parentheses.
fn condition(context: Context, tokens: &[Terminal]) -> Result<(Expr, u32, &[Terminal]), Halt>
    ensures gives { Reads expr_tree result (condition context.room tokens.now) }
    ensures low { IfOk result (λ x. x.1 ≤ context.room) }
{
    let rest = expect(Punctuator::OpenParenthesis, tokens)?;
    let (expression, height, rest) = part(context, Form::Expression, rest)?;
    let (expression, rest) = followed(expression, Punctuator::CloseParenthesis, rest)?;
    Ok((expression, height, rest))
}

/// What a `for` begins with, and the semicolon behind it (C11 6.8.5.3).
fn start_of(context: Context, tokens: &[Terminal]) -> Result<(Start, u32, &[Terminal]), Halt>
    ensures gives { Reads start_tree result (start_of context.room tokens.now) }
    ensures low { IfOk result (λ x. x.1 ≤ context.room) }
{
    if begins_type(tokens) {
        let (declaration, height, rest) = declaration_within(context, tokens)?;
        return Ok((Start::Declaration(declaration), height, rest));
    }
    if let Some(rest) = strip(Punctuator::Semicolon, tokens) {
        return Ok((Start::Nothing, 0, rest));
    }
    let (expression, height, rest) = part(context, Form::Expression, tokens)?;
    let (expression, rest) = followed(expression, Punctuator::Semicolon, rest)?;
    Ok((Start::Expression(expression), height, rest))
}

/// Whether a statement begins here.
fn begins_statement(tokens: &[Terminal]) -> bool
    ensures { result ≡ begins_statement tokens.now }
{
    begins_one(tokens)
        || starts(Punctuator::OpenBrace, tokens)
        || starts(Punctuator::Semicolon, tokens)
        || starts_with(Keyword::If, tokens)
        || starts_with(Keyword::While, tokens)
        || starts_with(Keyword::Do, tokens)
        || starts_with(Keyword::For, tokens)
        || starts_with(Keyword::Switch, tokens)
        || starts_with(Keyword::Break, tokens)
        || starts_with(Keyword::Continue, tokens)
        || starts_with(Keyword::Return, tokens)
}

/// What stands behind `while`.
fn expect_while(tokens: &[Terminal]) -> Result<&[Terminal], Halt>
    ensures { Gives rest_of result (expect_while 0 (statement 0) tokens.now) }
{
    match tokens {
        [] => Err(Halt::Unexpected(0)),
        [first, rest @ ..] => {
            if is_keyword(Keyword::While, first) {
                Ok(rest)
            } else {
                Err(Halt::Unexpected(tokens.len()))
            }
        }
    }
}

/// `return`, behind its keyword (C11 6.8.6.4).
fn after_return(
    context: Context,
    at: u32,
    tokens: &[Terminal],
) -> Result<(Stmt, u32, &[Terminal]), Halt>
    ensures gives { Reads stmt_tree result (with_statements context after_return at tokens.now) }
    ensures low { IfOk result (λ x. x.1 ≤ context.room + 1) }
{
    let (value, height, rest) = optional(context, Punctuator::Semicolon, tokens)?;
    Ok((nodes::returned(at, value), height + 1, rest))
}

/// An expression and the semicolon behind it (C11 6.8.3).
fn running(context: Context, tokens: &[Terminal]) -> Result<(Stmt, u32, &[Terminal]), Halt>
    ensures gives { Reads stmt_tree result (with_statements context running tokens.now) }
    ensures low { IfOk result (λ x. x.1 ≤ context.room + 1) }
{
    let (expression, height, rest) = part(context, Form::Expression, tokens)?;
    let (expression, rest) = followed(expression, Punctuator::Semicolon, rest)?;
    Ok((
        nodes::expression(place(tokens), expression),
        height + 1,
        rest,
    ))
}

/// A statement that has no statement as a part. The tokens are the first and the rest.
fn plain_statement<'a>(
    context: Context,
    first: &Terminal,
    rest: &'a [Terminal],
    tokens: &'a [Terminal],
) -> Result<(Stmt, u32, &'a [Terminal]), Halt>
    requires all { tokens.now ≡ first.now ∷ rest.now }
    ensures gives { Reads stmt_tree result (plain_statement context first.now rest.now) }
    ensures low { IfOk result (λ x. x.1 ≤ context.room + 1) }
{
    let at = place(tokens);
    if is_keyword(Keyword::Break, first) {
        let rest = expect(Punctuator::Semicolon, rest)?;
        return Ok((nodes::broken(at), 1, rest));
    }
    if is_keyword(Keyword::Continue, first) {
        let rest = expect(Punctuator::Semicolon, rest)?;
        return Ok((nodes::continued(at), 1, rest));
    }
    if is_keyword(Keyword::Return, first) {
        return after_return(context, at, rest);
    }
    running(context, tokens)
}

/// `case`, with the colon behind its expression (C11 6.8.1).
fn case_of(context: Context, tokens: &[Terminal]) -> Result<(Stmt, u32, &[Terminal]), Halt>
    ensures gives { Reads stmt_tree result (with_statements context case_of tokens.now) }
    ensures low { IfOk result (λ x. x.1 ≤ context.room) }
{
    let [_, rest @ ..] = tokens else {
        return Err(Halt::Unexpected(0));
    };
    if context.room < 2 {
        return Err(Halt::TooDeep(tokens.len()));
    }
    let (value, height, rest) = part(context.inner(), Form::Conditional, rest)?;
    let (value, rest) = followed(value, Punctuator::Colon, rest)?;
    Ok((nodes::case_label(place(tokens), value), height + 1, rest))
}

/// `default` and its colon (C11 6.8.1).
fn default_of(context: Context, tokens: &[Terminal]) -> Result<(Stmt, u32, &[Terminal]), Halt>
    ensures gives { Reads stmt_tree result (with_statements context default_of tokens.now) }
    ensures low { IfOk result (λ x. x.1 ≤ context.room) }
{
    let [_, rest @ ..] = tokens else {
        return Err(Halt::Unexpected(0));
    };
    if context.room == 0 {
        return Err(Halt::TooDeep(tokens.len()));
    }
    let rest = expect(Punctuator::Colon, rest)?;
    Ok((nodes::default_label(place(tokens)), 1, rest))
}

/// Whether a label of a switch begins here.
fn begins_label(tokens: &[Terminal]) -> bool
    ensures { result ≡ begins_label tokens.now }
{
    starts_with(Keyword::Case, tokens) || starts_with(Keyword::Default, tokens)
}

/// Whether the brace at the end of a switch stands here, and no label before it.
fn ends_switch(labelled: bool, tokens: &[Terminal]) -> bool
    ensures { result ≡ ends_switch labelled tokens.now }
{
    !labelled && starts(Punctuator::CloseBrace, tokens)
}

/// Whether the token is `if`, `while`, `do`, `for` or `switch` (C11 6.8.4, 6.8.5).
fn is_nesting(first: &Terminal) -> bool
    ensures { result ≡ is_nesting first.now }
{
    is_keyword(Keyword::If, first)
        || is_keyword(Keyword::While, first)
        || is_keyword(Keyword::Do, first)
        || is_keyword(Keyword::For, first)
        || is_keyword(Keyword::Switch, first)
}

/// A statement that is at most `context.room` high.
#[cycle(statement)]
#[tactic(auto, using(crate::proofs::CodeStatements::statement_cases))]
fn statement(context: Context, tokens: &[Terminal]) -> Result<(Stmt, u32, &[Terminal]), Halt>
    ensures gives { Reads stmt_tree result (statement context.room tokens.now) }
    ensures low { IfOk result (λ x. x.1 ≤ context.room) }
{
    if context.room == 0 {
        if begins_statement(tokens) {
            return Err(Halt::TooDeep(tokens.len()));
        }
        return Err(Halt::Unexpected(tokens.len()));
    }
    statement_at(context.inner(), tokens)
}

/// A statement that is at most `context.room` high, in a box of its own.
#[cycle(statement)]
fn boxed(context: Context, tokens: &[Terminal]) -> Result<(Box<Stmt>, u32, &[Terminal]), Halt>
    ensures gives { Reads boxed_stmt result (statement context.room tokens.now) }
    ensures low { IfOk result (λ x. x.1 ≤ context.room) }
{
    let (found, height, rest) = statement(context, tokens)?;
    Ok((Box::new(context.alloc, found)?, height, rest))
}

/// A statement or a declaration of a block (C11 6.8.2).
#[cycle(statement)]
fn item(context: Context, tokens: &[Terminal]) -> Result<(Stmt, u32, &[Terminal]), Halt>
    ensures gives { Reads stmt_tree result (with_statements context item tokens.now) }
    ensures low { IfOk result (λ x. x.1 ≤ context.room) }
{
    if begins_type(tokens) {
        let (declaration, height, rest) = declaration_within(context, tokens)?;
        return Ok((Stmt::Declaration(declaration), height, rest));
    }
    statement(context, tokens)
}

/// The items of a block, and the brace behind them.
#[cycle(statement)]
#[tactic(auto, using(crate::proofs::CodeStatements::item_steps))]
pub fn items(context: Context, tokens: &[Terminal]) -> Result<(Vec<Stmt>, u32, &[Terminal]), Halt>
    ensures gives { ReadsList stmt_tree result (with_statements context items) tokens.now }
    ensures low { IfOk result (λ x. x.1 ≤ context.room) }
{
    let mut items = Vec::new(context.alloc);
    let mut height: u32 = 0;
    let mut rest = tokens;
    for _ in 0..tokens.len() {
        if let Some(behind) = strip(Punctuator::CloseBrace, rest) {
            return Ok((items, height, behind));
        }
        let (found, high, after) = item(context, rest)?;
        items.push(found)?;
        height = height.max(high);
        rest = after;
    }
    Err(Halt::Unexpected(rest.len()))
}

/// A block, behind its brace (C11 6.8.2).
#[cycle(statement)]
fn in_block(context: Context, tokens: &[Terminal]) -> Result<(Stmt, u32, &[Terminal]), Halt>
    ensures gives { Reads stmt_tree result (with_statements context in_block tokens.now) }
    ensures low { IfOk result (λ x. x.1 ≤ context.room + 1) }
{
    let (items, height, rest) = items(context, tokens)?;
    Ok((nodes::block(items), height + 1, rest))
}

/// A label, a declaration where no label stands before it, or a statement (C11 6.8.1, 6.8.4.2).
#[cycle(statement)]
fn switch_item(
    context: Context,
    labelled: bool,
    tokens: &[Terminal],
) -> Result<(Stmt, u32, &[Terminal]), Halt>
    ensures gives { Reads stmt_tree result (switch_item context labelled tokens.now) }
    ensures low { IfOk result (λ x. x.1 ≤ context.room) }
{
    if starts_with(Keyword::Case, tokens) {
        return case_of(context, tokens);
    }
    if starts_with(Keyword::Default, tokens) {
        return default_of(context, tokens);
    }
    if labelled {
        return statement(context, tokens);
    }
    item(context, tokens)
}

/// The items of a switch, and the brace behind them, which stands behind no label.
#[cycle(statement)]
#[tactic(auto, using(crate::proofs::CodeStatements::switch_steps))]
fn switch_items(
    context: Context,
    tokens: &[Terminal],
) -> Result<(Vec<Stmt>, u32, &[Terminal]), Halt>
    ensures gives { Reads (listed stmt_tree) result (switch_items context tokens.now) }
    ensures low { IfOk result (λ x. x.1 ≤ context.room) }
{
    let mut items = Vec::new(context.alloc);
    let mut height: u32 = 0;
    let mut labelled = false;
    let mut rest = tokens;
    for _ in 0..tokens.len() {
        if ends_switch(labelled, rest) {
            let behind = expect(Punctuator::CloseBrace, rest)?;
            return Ok((items, height, behind));
        }
        let (found, high, after) = switch_item(context, labelled, rest)?;
        items.push(found)?;
        height = height.max(high);
        labelled = begins_label(rest);
        rest = after;
    }
    Err(Halt::Unexpected(rest.len()))
}

/// The braces of a switch, with what stands between them.
#[cycle(statement)]
#[tactic(auto, using(crate::proofs::CodeStatements::block_cases))]
fn switch_block(
    context: Context,
    tokens: &[Terminal],
) -> Result<(Vec<Stmt>, u32, &[Terminal]), Halt>
    requires some { 0 < context.room }
    ensures gives { Reads (listed stmt_tree) result (switch_block context.room tokens.now) }
    ensures low { IfOk result (λ x. x.1 ≤ context.room) }
{
    let rest = expect(Punctuator::OpenBrace, tokens)?;
    let (items, height, rest) = switch_items(context.inner(), rest)?;
    Ok((items, height + 1, rest))
}

/// `switch`, behind its keyword (C11 6.8.4.2).
#[cycle(statement)]
fn after_switch(
    context: Context,
    at: u32,
    tokens: &[Terminal],
) -> Result<(Stmt, u32, &[Terminal]), Halt>
    requires some { 0 < context.room }
    ensures gives { Reads stmt_tree result (with_blocks context after_switch at tokens.now) }
    ensures low { IfOk result (λ x. x.1 ≤ context.room + 1) }
{
    let (operand, height, rest) = condition(context, tokens)?;
    let (items, high, rest) = switch_block(context, rest)?;
    let node = nodes::switch_of(at, operand, items);
    Ok((node, height.max(high) + 1, rest))
}

/// `else` and what follows it, if it stands here.
#[cycle(statement)]
fn otherwise(
    context: Context,
    tokens: &[Terminal],
) -> Result<(Option<Box<Stmt>>, u32, &[Terminal]), Halt>
    ensures gives { Reads second_tree result (with_statements context otherwise tokens.now) }
    ensures low { IfOk result (λ x. x.1 ≤ context.room) }
{
    if !starts_with(Keyword::Else, tokens) {
        return Ok((None, 0, tokens));
    }
    let [_, rest @ ..] = tokens else {
        return Err(Halt::Unexpected(0));
    };
    let (second, height, rest) = boxed(context, rest)?;
    Ok((Some(second), height, rest))
}

/// `if`, behind its keyword (C11 6.8.4.1).
#[cycle(statement)]
fn after_if(
    context: Context,
    at: u32,
    tokens: &[Terminal],
) -> Result<(Stmt, u32, &[Terminal]), Halt>
    ensures gives { Reads stmt_tree result (with_statements context after_if at tokens.now) }
    ensures low { IfOk result (λ x. x.1 ≤ context.room + 1) }
{
    let (condition, condition_height, rest) = condition(context, tokens)?;
    let (first, first_height, rest) = boxed(context, rest)?;
    let (second, second_height, rest) = otherwise(context, rest)?;
    let height = condition_height.max(first_height.max(second_height));
    let node = nodes::branch(at, condition, first, second);
    Ok((node, height + 1, rest))
}

/// `while`, behind its keyword (C11 6.8.5.1).
#[cycle(statement)]
fn after_while(
    context: Context,
    at: u32,
    tokens: &[Terminal],
) -> Result<(Stmt, u32, &[Terminal]), Halt>
    ensures gives { Reads stmt_tree result (with_statements context after_while at tokens.now) }
    ensures low { IfOk result (λ x. x.1 ≤ context.room + 1) }
{
    let (condition, height, rest) = condition(context, tokens)?;
    let (body, high, rest) = boxed(context, rest)?;
    let node = nodes::while_loop(at, condition, body);
    Ok((node, height.max(high) + 1, rest))
}

/// `do`, behind its keyword (C11 6.8.5.2).
#[cycle(statement)]
fn after_do(
    context: Context,
    at: u32,
    tokens: &[Terminal],
) -> Result<(Stmt, u32, &[Terminal]), Halt>
    ensures gives { Reads stmt_tree result (with_statements context after_do at tokens.now) }
    ensures low { IfOk result (λ x. x.1 ≤ context.room + 1) }
{
    let (body, height, rest) = boxed(context, tokens)?;
    let rest = expect_while(rest)?;
    let (condition, high, rest) = condition(context, rest)?;
    let (condition, rest) = followed(condition, Punctuator::Semicolon, rest)?;
    let node = nodes::do_loop(at, body, condition);
    Ok((node, height.max(high) + 1, rest))
}

/// What each turn of a `for` evaluates and executes (C11 6.8.5.3).
struct Turn {
    condition: Option<Expr>,
    step: Option<Expr>,
    body: Box<Stmt>,
}

/// The step of a `for`, the parenthesis behind it, and the body.
#[cycle(statement)]
fn step_and_body(
    context: Context,
    tokens: &[Terminal],
) -> Result<((Option<Expr>, Box<Stmt>), u32, &[Terminal]), Halt>
    ensures gives { Reads step_tree result (with_statements context step_and_body tokens.now) }
    ensures low { IfOk result (λ x. x.1 ≤ context.room) }
{
    let (step, height, rest) = optional(context, Punctuator::CloseParenthesis, tokens)?;
    let (body, high, rest) = boxed(context, rest)?;
    Ok(((step, body), height.max(high), rest))
}

/// What stands behind what a `for` begins with.
#[cycle(statement)]
fn turn_of(context: Context, tokens: &[Terminal]) -> Result<(Turn, u32, &[Terminal]), Halt>
    ensures gives { Reads turn_tree result (with_statements context turn_of tokens.now) }
    ensures low { IfOk result (λ x. x.1 ≤ context.room) }
{
    let (condition, height, rest) = optional(context, Punctuator::Semicolon, tokens)?;
    let ((step, body), high, rest) = step_and_body(context, rest)?;
    let turn = Turn {
        condition,
        step,
        body,
    };
    Ok((turn, height.max(high), rest))
}

/// `for`, behind its keyword (C11 6.8.5.3).
#[cycle(statement)]
fn after_for(
    context: Context,
    at: u32,
    tokens: &[Terminal],
) -> Result<(Stmt, u32, &[Terminal]), Halt>
    ensures gives { Reads stmt_tree result (with_statements context after_for at tokens.now) }
    ensures low { IfOk result (λ x. x.1 ≤ context.room + 1) }
{
    let rest = expect(Punctuator::OpenParenthesis, tokens)?;
    let (start, height, rest) = start_of(context, rest)?;
    let (turn, high, rest) = turn_of(context, rest)?;
    let Turn {
        condition,
        step,
        body,
    } = turn;
    let node = nodes::for_loop(at, start, condition, step, body);
    Ok((node, height.max(high) + 1, rest))
}

/// A statement that begins with a word, or an expression. The tokens are the first and the rest.
#[cycle(statement)]
fn keyword_statement<'a>(
    context: Context,
    first: &Terminal,
    rest: &'a [Terminal],
    tokens: &'a [Terminal],
) -> Result<(Stmt, u32, &'a [Terminal]), Halt>
    requires all { tokens.now ≡ first.now ∷ rest.now }
    ensures gives { Reads stmt_tree result (keyword_statement context first.now rest.now) }
    ensures low { IfOk result (λ x. x.1 ≤ context.room + 1) }
{
    let at = place(tokens);
    if context.room == 0 && is_nesting(first) {
        return Err(Halt::TooDeep(tokens.len()));
    }
    if is_keyword(Keyword::If, first) {
        return after_if(context, at, rest);
    }
    if is_keyword(Keyword::While, first) {
        return after_while(context, at, rest);
    }
    if is_keyword(Keyword::Do, first) {
        return after_do(context, at, rest);
    }
    if is_keyword(Keyword::For, first) {
        return after_for(context, at, rest);
    }
    if is_keyword(Keyword::Switch, first) {
        return after_switch(context, at, rest);
    }
    plain_statement(context, first, rest, tokens)
}

/// A statement (C11 6.8) with at most `context.room` levels for its parts.
#[cycle(statement)]
fn statement_at(context: Context, tokens: &[Terminal]) -> Result<(Stmt, u32, &[Terminal]), Halt>
    ensures gives { Reads stmt_tree result (with_blocks context statement_at tokens.now) }
    ensures low { IfOk result (λ x. x.1 ≤ context.room + 1) }
{
    let [first, rest @ ..] = tokens else {
        return Err(Halt::Unexpected(0));
    };
    if is_punctuator(Punctuator::Semicolon, first) {
        return Ok((nodes::empty(place(tokens)), 1, rest));
    }
    if is_punctuator(Punctuator::OpenBrace, first) {
        return in_block(context, rest);
    }
    keyword_statement(context, first, rest, tokens)
}
