// What stands at file scope (C11 6.9). What is read is at most `context.room + 2` high.
ghost use Rattle.std.specs.Prelude.{◌≡◌, ◌+◌, ◌-◌, ◌<◌, ◌≤◌, [], IfOk, length};
ghost use Rattle.qs_syntax_vocabulary.specs.Marks.{marked};
ghost use Rattle.qs_syntax.specs.ReadsTypes.{Plain, Any};
ghost use Rattle.qs_syntax.specs.TreeOf.{body_tree, declarator_tree, decl_tree, defined_tree};
ghost use Rattle.qs_syntax.specs.Units.{height_limit};
ghost use Rattle.qs_parser_grammar.specs.ParseDeclarations.{declarator};
ghost use Rattle.qs_parser_grammar.specs.ParseStatements.{is_named, struct_of, forward_of, function_of};
ghost use Rattle.qs_parser_grammar.specs.ParseStatements.{typed, plain, braced, struct_defined};
ghost use Rattle.qs_parser_grammar.specs.ParseStatements.{has_members, defined, unit};
ghost use Rattle.qs_parser_expressions.specs.View.{Gives, Reads};
ghost use Rattle.qs_parser.specs.UnitView.{Leaves, LeavesList, function_with, unit_of};
ghost use Rattle.qs_parser_grammar.specs.ParseMarked.{last, marked_also, type_names, typedef_of, external, externals};
ghost use Rattle.qs_parser_expressions.specs.Readers.{most_levels};
ghost use Rattle.qs_parser.specs.UnitReaders.{body_of};

use crate::declarations::{any_declarator, declared, groups, head};
use crate::marks::Marked;
use crate::statements::items;
use qs_base::Name;
use qs_parser_expressions::{
    Context, Halt, expect, expect_any_name, expect_name, is_keyword, outer_type, place, stars,
    starts, starts_with, strip, type_of,
};
use qs_syntax::{
    Base, Decl, Declarator, Defined, Forward, Function, Node, Parameter, Stmt, Struct, TypeName,
    Typedef,
};
use qs_syntax_vocabulary::{Keyword, Punctuator, Terminal};
use std::alloc::Global;

/// The height to which the parts of a function's body are read: with it the unit is at most 128
/// high.
const ROOM: u8 = 126;

/// Whether a name that is no type's, with this punctuator behind it, stands here.
fn is_named(punctuator: Punctuator, tokens: &[Terminal]) -> bool
    ensures { result ≡ is_named Plain punctuator tokens.now }
{
    match tokens {
        [Terminal::Name(..), rest @ ..] => starts(punctuator, rest),
        _ => false,
    }
}

/// Whether a name, a type's or not, with this punctuator behind it, stands here.
fn is_any_named(punctuator: Punctuator, tokens: &[Terminal]) -> bool
    ensures { result ≡ is_named Any punctuator tokens.now }
{
    match tokens {
        [Terminal::Name(..), rest @ ..] => starts(punctuator, rest),
        [Terminal::TypeName(..), rest @ ..] => starts(punctuator, rest),
        _ => false,
    }
}

/// A struct with its members, behind `struct` (C11 6.7.2.1).
fn struct_of(
    context: Context,
    token: u32,
    tokens: &[Terminal],
) -> Result<(Decl, u32, &[Terminal]), Halt>
    ensures gives { Reads decl_tree result (struct_of context.room token tokens.now) }
    ensures low { IfOk result (λ x. x.1 ≤ context.room + 2) }
{
    let (_at, name, rest) = expect_any_name(context.alloc, tokens)?;
    let rest = expect(Punctuator::OpenBrace, rest)?;
    let (members, height, rest) = groups(context, rest)?;
    let rest = expect(Punctuator::Semicolon, rest)?;
    let found = Struct {
        node: Node { id: 0, token },
        name: Some(name),
        members,
    };
    Ok((Decl::Struct(found), height + 1, rest))
}

/// A struct without members, behind `struct` (C11 6.7.2.3).
fn forward_of(
    alloc: Global,
    token: u32,
    tokens: &[Terminal],
) -> Result<(Decl, u32, &[Terminal]), Halt>
    ensures gives { Reads decl_tree result (forward_of token tokens.now) }
    ensures low { IfOk result (λ x. x.1 ≤ 1) }
{
    let (_at, name, rest) = expect_any_name(alloc, tokens)?;
    let rest = expect(Punctuator::Semicolon, rest)?;
    let found = Forward {
        node: Node { id: 0, token },
        name,
    };
    Ok((Decl::Forward(found), 1, rest))
}

/// What a function begins with, up to the parenthesis behind its parameters.
#[derive(Drop)]
struct Header {
    token: u32,
    base: Base,
    stars: u32,
    name: Name,
    parameters: Vec<Parameter>,
}

/// A function of this header, with or without a body.
fn function(header: Header, body: Option<Vec<Stmt>>) -> Decl
    ensures { decl_tree result ≡ function_with header (body_tree body) }
{
    Decl::Function(Function {
        node: Node {
            id: 0,
            token: header.token,
        },
        result_type: TypeName {
            base: header.base,
            stars: header.stars,
        },
        name: header.name,
        parameters: header.parameters,
        body,
    })
}

/// What stands behind a header's parameters: a semicolon or a body (C11 6.7.6.3, 6.9.1).
#[tactic(auto, unfolding(qs_parser_grammar::specs::ParseStatements::body_of))]
fn body_of(
    context: Context,
    header: Header,
    height: u32,
    tokens: &[Terminal],
) -> Result<(Decl, u32, &[Terminal]), Halt>
    requires low { height ≤ context.room + 1 }
    ensures gives { Reads decl_tree result (body_of context header height tokens.now) }
    ensures low { IfOk result (λ x. x.1 ≤ context.room + 2) }
{
    if let Some(rest) = strip(Punctuator::Semicolon, tokens) {
        return Ok((function(header, None), height + 1, rest));
    }
    let rest = expect(Punctuator::OpenBrace, tokens)?;
    let (body, high, rest) = items(context, rest)?;
    Ok((function(header, Some(body)), height.max(high + 1) + 1, rest))
}

/// A function, behind the stars of its header.
fn function_of(
    context: Context,
    token: u32,
    base: Base,
    stars: u32,
    tokens: &[Terminal],
) -> Result<(Decl, u32, &[Terminal]), Halt>
    ensures gives { Reads decl_tree result (function_of context.room token base stars tokens.now) }
    ensures low { IfOk result (λ x. x.1 ≤ context.room + 2) }
{
    let (_at, name, rest) = expect_name(context.alloc, tokens)?;
    let rest = expect(Punctuator::OpenParenthesis, rest)?;
    let (parameters, height, rest) = head(context, rest)?;
    let header = Header {
        token,
        base,
        stars,
        name,
        parameters,
    };
    body_of(context, header, height, rest)
}

/// What stands behind a type: a function or variables. `start` is the place of the first token.
fn typed(
    context: Context,
    start: u32,
    base: Base,
    tokens: &[Terminal],
) -> Result<(Decl, u32, &[Terminal]), Halt>
    requires fits { context.room < most_levels }
    ensures gives { Reads decl_tree result (typed context.room start base tokens.now) }
    ensures low { IfOk result (λ x. x.1 ≤ context.room + 2) }
{
    let (stars, rest) = stars(tokens)?;
    if is_named(Punctuator::OpenParenthesis, rest) {
        return function_of(context, start, base, stars, rest);
    }
    let outer = Context {
        alloc: context.alloc,
        room: context.room + 1,
    };
    let (variables, height, rest) = declared(outer, base, tokens)?;
    Ok((Decl::Variable(variables), height, rest))
}

/// A struct, a function or variables (C11 6.9).
#[tactic(auto, unfolding(qs_parser_grammar::specs::ParseStatements::plain))]
fn plain(context: Context, tokens: &[Terminal]) -> Result<(Decl, u32, &[Terminal]), Halt>
    requires fits { context.room < most_levels }
    ensures gives { Reads decl_tree result (plain context.room tokens.now) }
    ensures low { IfOk result (λ x. x.1 ≤ context.room + 2) }
{
    let [first, rest @ ..] = tokens else {
        return Err(Halt::Unexpected(0));
    };
    let start = place(tokens);
    if is_keyword(Keyword::Struct, first) && is_any_named(Punctuator::OpenBrace, rest) {
        return struct_of(context, start, rest);
    }
    if is_keyword(Keyword::Struct, first) && is_any_named(Punctuator::Semicolon, rest) {
        return forward_of(context.alloc, start, rest);
    }
    let (base, rest) = outer_type(context.alloc, tokens)?;
    typed(context, start, base, rest)
}

/// A struct that a typedef defines, behind its tag if it has one.
fn braced(
    context: Context,
    token: u32,
    name: Option<Name>,
    tokens: &[Terminal],
) -> Result<(Defined, u32, &[Terminal]), Halt>
    ensures gives { Reads defined_tree result (braced context.room token name tokens.now) }
    ensures low { IfOk result (λ x. x.1 ≤ context.room + 2) }
{
    let rest = expect(Punctuator::OpenBrace, tokens)?;
    let (members, height, rest) = groups(context, rest)?;
    let found = Struct {
        node: Node { id: 0, token },
        name,
        members,
    };
    Ok((Defined::Struct(found), height + 1, rest))
}

/// Such a struct, behind `struct`.
fn struct_defined(
    context: Context,
    token: u32,
    tokens: &[Terminal],
) -> Result<(Defined, u32, &[Terminal]), Halt>
    ensures gives { Reads defined_tree result (struct_defined context.room token tokens.now) }
    ensures low { IfOk result (λ x. x.1 ≤ context.room + 2) }
{
    if starts(Punctuator::OpenBrace, tokens) {
        return braced(context, token, None, tokens);
    }
    let (_at, name, rest) = expect_any_name(context.alloc, tokens)?;
    braced(context, token, Some(name), rest)
}

/// Whether members stand here, with or without a tag before them.
fn has_members(tokens: &[Terminal]) -> bool
    ensures { result ≡ has_members tokens.now }
{
    starts(Punctuator::OpenBrace, tokens) || is_any_named(Punctuator::OpenBrace, tokens)
}

/// What a typedef gives names to (C11 6.7.8).
#[tactic(auto, unfolding(qs_parser_grammar::specs::ParseStatements::defined))]
fn defined(context: Context, tokens: &[Terminal]) -> Result<(Defined, u32, &[Terminal]), Halt>
    ensures gives { Reads defined_tree result (defined context.room tokens.now) }
    ensures low { IfOk result (λ x. x.1 ≤ context.room + 2) }
{
    let [first, rest @ ..] = tokens else {
        return Err(Halt::Unexpected(0));
    };
    if is_keyword(Keyword::Struct, first) && has_members(rest) {
        return struct_defined(context, place(tokens), rest);
    }
    let (base, rest) = type_of(context.alloc, tokens)?;
    Ok((Defined::Base(base), 0, rest))
}

/// How many tokens are left behind a declarator.
#[tactic(auto, using(qs_parser_grammar::proofs::MarkedSteps::left_behind))]
fn declared_name(context: Context, tokens: &[Terminal]) -> Result<(Declarator, u32, usize), Halt>
    ensures gives { Leaves declarator_tree tokens.now result (declarator Any context.room tokens.now) }
    ensures few { IfOk result (λ x. x.2 ≤ length tokens.now) }
    ensures low { IfOk result (λ x. x.1 ≤ context.room) }
{
    let (declarator, height, rest) = any_declarator(context, tokens)?;
    Ok((declarator, height, rest.len()))
}

/// A name of a type, in the last `left` of the tokens. It is marked.
#[tactic(auto, using(qs_parser_grammar::proofs::MarkedSteps::last_steps))]
fn type_name(
    context: Context,
    tokens: &mut Marked,
    left: usize,
) -> Result<(Declarator, u32, usize), Halt>
    requires within { left ≤ length tokens.old.tokens.items }
    ensures gives { Leaves declarator_tree tokens.old.tokens.items result (declarator Any context.room (last left tokens.old.tokens.items)) }
    ensures few { IfOk result (λ x. x.2 ≤ left) }
    ensures marks { IfOk result (λ x. tokens.new.tokens.items ≡ marked_also x.0.name tokens.old.tokens.items) }
    ensures as_many { length tokens.new.tokens.items ≡ length tokens.old.tokens.items }
    ensures low { IfOk result (λ x. x.1 ≤ context.room) }
{
    let (declarator, height, behind) = declared_name(context, tokens.unread(left))?;
    tokens.mark(&declarator.name);
    Ok((declarator, height, behind))
}

/// The names of types in a typedef, and the semicolon behind them, in the last `left` of the
/// tokens. Each is marked in what follows it.
#[tactic(auto, using(qs_parser_grammar::proofs::MarkedSteps::name_steps))]
fn type_names(
    context: Context,
    tokens: &mut Marked,
    left: usize,
) -> Result<(Vec<Declarator>, u32, usize), Halt>
    requires within { left ≤ length tokens.old.tokens.items }
    ensures gives { LeavesList declarator_tree tokens.new.tokens.items result (type_names context.room) (last left tokens.old.tokens.items) }
    ensures few { IfOk result (λ x. x.2 ≤ left) }
    ensures as_many { length tokens.new.tokens.items ≡ length tokens.old.tokens.items }
    ensures low { IfOk result (λ x. x.1 ≤ context.room + 1) }
{
    let mut names = Vec::new(context.alloc);
    let mut height: u32 = 0;
    let mut behind = left;
    for _ in 0..left {
        let (item, high, after) = type_name(context, tokens, behind)?;
        names.push(item)?;
        height = height.max(high + 1);
        if let Some(rest) = strip(Punctuator::Semicolon, tokens.unread(after)) {
            return Ok((names, height, rest.len()));
        }
        behind = expect(Punctuator::Comma, tokens.unread(after))?.len();
    }
    Err(Halt::Unexpected(behind))
}

/// How many tokens are left behind what a typedef gives names to.
#[tactic(auto, using(qs_parser_grammar::proofs::MarkedSteps::left_behind))]
fn known(context: Context, tokens: &[Terminal]) -> Result<(Defined, u32, usize), Halt>
    ensures gives { Leaves defined_tree tokens.now result (defined context.room tokens.now) }
    ensures few { IfOk result (λ x. x.2 ≤ length tokens.now) }
    ensures low { IfOk result (λ x. x.1 ≤ context.room + 2) }
{
    let (defined, height, rest) = defined(context, tokens)?;
    Ok((defined, height, rest.len()))
}

/// Names of types, behind `typedef` (C11 6.7.8), in the last `left` of the tokens.
#[tactic(auto, using(qs_parser_grammar::proofs::MarkedSteps::typedef_steps))]
fn typedef_of(
    context: Context,
    tokens: &mut Marked,
    left: usize,
) -> Result<(Decl, u32, usize), Halt>
    requires fits { context.room < most_levels }
    requires within { left ≤ length tokens.old.tokens.items }
    ensures gives { Leaves decl_tree tokens.new.tokens.items result (typedef_of context.room (last left tokens.old.tokens.items)) }
    ensures few { IfOk result (λ x. x.2 ≤ left) }
    ensures as_many { length tokens.new.tokens.items ≡ length tokens.old.tokens.items }
    ensures low { IfOk result (λ x. x.1 ≤ context.room + 2) }
{
    let (defined, high, behind) = known(context, tokens.unread(left))?;
    let outer = Context {
        alloc: context.alloc,
        room: context.room + 1,
    };
    let (names, height, behind) = type_names(outer, tokens, behind)?;
    let found = Typedef { defined, names };
    Ok((Decl::Typedef(found), high.max(height), behind))
}

/// How many tokens are left behind a struct, a function or variables.
#[tactic(auto, using(qs_parser_grammar::proofs::MarkedSteps::left_behind))]
fn plain_external(context: Context, tokens: &[Terminal]) -> Result<(Decl, u32, usize), Halt>
    requires fits { context.room < most_levels }
    ensures gives { Leaves decl_tree tokens.now result (plain context.room tokens.now) }
    ensures few { IfOk result (λ x. x.2 ≤ length tokens.now) }
    ensures low { IfOk result (λ x. x.1 ≤ context.room + 2) }
{
    let (found, height, rest) = plain(context, tokens)?;
    Ok((found, height, rest.len()))
}

/// What stands at file scope, in the last `left` of the tokens (C11 6.9).
#[tactic(auto, using(qs_parser_grammar::proofs::MarkedSteps::scope_steps))]
fn external(context: Context, tokens: &mut Marked, left: usize) -> Result<(Decl, u32, usize), Halt>
    requires fits { context.room < most_levels }
    requires within { left ≤ length tokens.old.tokens.items }
    ensures gives { Leaves decl_tree tokens.new.tokens.items result (external context.room (last left tokens.old.tokens.items)) }
    ensures few { IfOk result (λ x. x.2 ≤ left) }
    ensures as_many { length tokens.new.tokens.items ≡ length tokens.old.tokens.items }
    ensures low { IfOk result (λ x. x.1 ≤ context.room + 2) }
{
    if starts_with(Keyword::Typedef, tokens.unread(left)) {
        return typedef_of(context, tokens, left - 1);
    }
    plain_external(context, tokens.unread(left))
}

/// All that stands at file scope, up to the end.
#[tactic(auto, using(qs_parser_grammar::proofs::MarkedSteps::external_steps))]
fn externals(context: Context, tokens: &mut Marked) -> Result<(Vec<Decl>, u32), Halt>
    requires fits { context.room < most_levels }
    ensures gives { Gives unit_of result (externals context.room (length tokens.old.tokens.items) [] 0 tokens.old.tokens.items) }
    ensures low { IfOk result (λ x. x.1 ≤ context.room + 2) }
{
    let mut found = Vec::new(context.alloc);
    let mut height: u32 = 0;
    let mut left = tokens.len();
    for _ in 0..tokens.len() {
        let (item, high, behind) = external(context, tokens, left)?;
        found.push(item)?;
        height = height.max(high);
        if behind == 0 {
            return Ok((found, height));
        }
        left = behind;
    }
    Err(Halt::Unexpected(left))
}

/// All of the tokens, which have no marks, as a unit (C11 6.9) that is at most 128 high, not yet
/// numbered, and how high it is.
#[tactic(auto, using(qs_parser_grammar::proofs::MarkedLaws::unit_is))]
pub fn read_unit(alloc: Global, tokens: Vec<Terminal>) -> Result<(Vec<Decl>, u32), Halt>
    requires unmarked { marked [] tokens.items ≡ tokens.items }
    ensures gives { Gives unit_of result (unit (height_limit - 2) tokens.items) }
    ensures low { IfOk result (λ x. x.1 ≤ height_limit) }
{
    let context = Context { alloc, room: ROOM };
    let mut tokens = Marked::new(alloc, tokens)?;
    externals(context, &mut tokens)
}
