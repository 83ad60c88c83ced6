// Declarations (C11 6.7). In all functions at most `context.room` levels are left for the parts of
// a node, and each answers what is read, how high its highest node is, and what stands behind it.
ghost use Rattle.std.specs.Prelude.{◌≡◌, ◌+◌, ◌≤◌, IfOk};
ghost use Rattle.qs_syntax.specs.ReadsTypes.{Plain, Any};
ghost use Rattle.qs_syntax.specs.Trees as trees;
ghost use Rattle.qs_syntax.specs.Trees.{list, unnumbered};
ghost use Rattle.qs_syntax.specs.TreeOf.{expr_tree, lengths_tree, declarator_tree};
ghost use Rattle.qs_syntax.specs.TreeOf.{initialiser_tree, initialisers_tree, variable_tree};
ghost use Rattle.qs_syntax.specs.TreeOf.{declaration_tree, members_tree, parameter_tree};
ghost use Rattle.qs_parser_grammar.specs.ParseDeclarations.{given_lengths, is_empty_brackets, lengths};
ghost use Rattle.qs_parser_grammar.specs.ParseDeclarations.{behind_name, declarator, begins_initialiser};
ghost use Rattle.qs_parser_grammar.specs.ParseDeclarations.{initialiser, variable, variables, declared};
ghost use Rattle.qs_parser_grammar.specs.ParseDeclarations.{declaration, declaration_within, declarators};
ghost use Rattle.qs_parser_grammar.specs.ParseDeclarations.{members, groups, with_name, is_void_alone};
ghost use Rattle.qs_parser_grammar.specs.ParseDeclarations.{without_first, parameter, parameters};
ghost use Rattle.qs_parser_grammar.specs.ParseDeclarations.{is_void_head, head};
ghost use Rattle.qs_parser_expressions.specs.View.{Reads, ReadsList, listed};
ghost use Rattle.qs_parser.specs.UnitView.{ReadsParameter};
ghost use Rattle.qs_parser.specs.UnitReaders.{lengths_of, initialisers, initialised, bracketed};

use qs_base::Name;
use qs_parser_expressions::{
    Context, Form, Halt, begins_one, expect, expect_any_name, expect_name, followed, is_keyword,
    is_punctuator, part, place, stars, starts, strip, type_of,
};
use qs_syntax::{
    Base, Declaration, Declarator, Expr, Initialiser, InitialiserList, Lengths, Members, Node,
    Parameter, TypeName, Variable,
};
use qs_syntax_vocabulary::{Keyword, Punctuator, Terminal};

/// The lengths in brackets, none of them empty (C11 6.7.6.2).
#[tactic(auto, using(crate::proofs::CodeDeclarations::length_steps))]
fn given_lengths(
    context: Context,
    tokens: &[Terminal],
) -> Result<(Vec<Expr>, u32, &[Terminal]), Halt>
    ensures gives { ReadsList expr_tree result (given_lengths context.room) tokens.now }
    ensures low { IfOk result (λ x. x.1 ≤ context.room) }
{
    let mut given = Vec::new(context.alloc);
    let mut height: u32 = 0;
    let mut rest = tokens;
    for _ in 0..tokens.len() {
        let Some(behind) = strip(Punctuator::OpenBracket, rest) else {
            return Ok((given, height, rest));
        };
        let (item, high, after) = part(context, Form::Conditional, behind)?;
        let (item, after) = followed(item, Punctuator::CloseBracket, after)?;
        given.push(item)?;
        height = height.max(high);
        rest = after;
    }
    Ok((given, height, rest))
}

/// Whether empty brackets stand first.
fn is_empty_brackets(tokens: &[Terminal]) -> bool
    ensures { result ≡ is_empty_brackets tokens.now }
{
    match tokens {
        [] => false,
        [first, rest @ ..] => {
            is_punctuator(Punctuator::OpenBracket, first) && starts(Punctuator::CloseBracket, rest)
        }
    }
}

/// The lengths of a declarator, behind first brackets that are empty where `is_open` says so.
fn lengths_of(
    context: Context,
    is_open: bool,
    tokens: &[Terminal],
) -> Result<(Lengths, u32, &[Terminal]), Halt>
    ensures gives { Reads lengths_tree result (lengths_of context is_open tokens.now) }
    ensures low { IfOk result (λ x. x.1 ≤ context.room) }
{
    let (given, height, rest) = given_lengths(context, tokens)?;
    Ok((Lengths { is_open, given }, height, rest))
}

/// The brackets behind a name (C11 6.7.6.2).
#[tactic(auto, unfolding(qs_parser_grammar::specs::ParseDeclarations::lengths))]
fn lengths(context: Context, tokens: &[Terminal]) -> Result<(Lengths, u32, &[Terminal]), Halt>
    ensures gives { Reads lengths_tree result (lengths context.room tokens.now) }
    ensures low { IfOk result (λ x. x.1 ≤ context.room) }
{
    if !is_empty_brackets(tokens) {
        return lengths_of(context, false, tokens);
    }
    let rest = expect(Punctuator::OpenBracket, tokens)?;
    let rest = expect(Punctuator::CloseBracket, rest)?;
    if context.room == 0 && starts(Punctuator::OpenBracket, rest) {
        return Err(Halt::TooDeep(rest.len()));
    }
    lengths_of(context, true, rest)
}

/// A declarator, behind its name.
fn behind_name(
    context: Context,
    stars: u32,
    token: u32,
    name: Name,
    tokens: &[Terminal],
) -> Result<(Declarator, u32, &[Terminal]), Halt>
    ensures gives { Reads declarator_tree result (behind_name context.room stars (token, name) tokens.now) }
    ensures low { IfOk result (λ x. x.1 ≤ context.room) }
{
    let (lengths, height, rest) = lengths(context, tokens)?;
    let declarator = Declarator {
        node: Node { id: 0, token },
        stars,
        name,
        lengths,
    };
    Ok((declarator, height, rest))
}

/// A name that is no type's, with the stars before it and the brackets behind it (C11 6.7.6).
#[tactic(auto, unfolding(qs_parser_grammar::specs::ParseDeclarations::declarator))]
fn declarator(context: Context, tokens: &[Terminal]) -> Result<(Declarator, u32, &[Terminal]), Halt>
    ensures gives { Reads declarator_tree result (declarator Plain context.room tokens.now) }
    ensures low { IfOk result (λ x. x.1 ≤ context.room) }
{
    let (stars, rest) = stars(tokens)?;
    let (token, name, rest) = expect_name(context.alloc, rest)?;
    behind_name(context, stars, token, name, rest)
}

/// The same of a name that may be a type's: of a member, or in a typedef (C11 6.7.2.1, 6.7.8).
#[tactic(auto, unfolding(qs_parser_grammar::specs::ParseDeclarations::declarator))]
pub fn any_declarator(
    context: Context,
    tokens: &[Terminal],
) -> Result<(Declarator, u32, &[Terminal]), Halt>
    ensures gives { Reads declarator_tree result (declarator Any context.room tokens.now) }
    ensures low { IfOk result (λ x. x.1 ≤ context.room) }
{
    let (stars, rest) = stars(tokens)?;
    let (token, name, rest) = expect_any_name(context.alloc, rest)?;
    behind_name(context, stars, token, name, rest)
}

/// The initialisers of a list, and the brace behind them (C11 6.7.9).
#[cycle(initialiser)]
#[tactic(auto, using(crate::proofs::CodeDeclarations::initialiser_steps))]
fn initialisers(
    context: Context,
    tokens: &[Terminal],
) -> Result<(Vec<Initialiser>, u32, &[Terminal]), Halt>
    ensures gives { ReadsList initialiser_tree result (initialisers context) tokens.now }
    ensures low { IfOk result (λ x. x.1 ≤ context.room) }
{
    let mut items = Vec::new(context.alloc);
    let mut height: u32 = 0;
    let mut rest = tokens;
    for _ in 0..tokens.len() {
        let (item, high, after) = initialiser(context, rest)?;
        items.push(item)?;
        height = height.max(high);
        if let Some(behind) = strip(Punctuator::CloseBrace, after) {
            return Ok((items, height, behind));
        }
        let behind = expect(Punctuator::Comma, after)?;
        if let Some(behind) = strip(Punctuator::CloseBrace, behind) {
            return Ok((items, height, behind));
        }
        rest = behind;
    }
    Err(Halt::Unexpected(rest.len()))
}

/// Whether an initialiser begins here.
fn begins_initialiser(tokens: &[Terminal]) -> bool
    ensures { result ≡ begins_initialiser tokens.now }
{
    starts(Punctuator::OpenBrace, tokens) || begins_one(tokens)
}

/// An initialiser that is at most `context.room` high (C11 6.7.9).
#[cycle(initialiser)]
#[tactic(auto, using(crate::proofs::CodeDeclarations::initialiser_cases))]
fn initialiser(
    context: Context,
    tokens: &[Terminal],
) -> Result<(Initialiser, u32, &[Terminal]), Halt>
    ensures gives { Reads initialiser_tree result (initialiser context.room tokens.now) }
    ensures low { IfOk result (λ x. x.1 ≤ context.room) }
{
    if context.room == 0 {
        if begins_initialiser(tokens) {
            return Err(Halt::TooDeep(tokens.len()));
        }
        return Err(Halt::Unexpected(tokens.len()));
    }
    let Some(rest) = strip(Punctuator::OpenBrace, tokens) else {
        let (value, height, rest) = part(context, Form::Assignment, tokens)?;
        return Ok((expression(value), height, rest));
    };
    if context.room == 1 {
        return Err(Halt::TooDeep(tokens.len()));
    }
    let (items, height, rest) = initialisers(context.inner(), rest)?;
    Ok((list(place(tokens), items), height + 1, rest))
}

/// An initialiser that is an expression.
fn expression(value: Expr) -> Initialiser
    ensures { initialiser_tree result ≡ trees.value (expr_tree value) }
{
    Initialiser::Value(value)
}

/// A list of initialisers.
fn list(token: u32, items: Vec<Initialiser>) -> Initialiser
    ensures { initialiser_tree result ≡ list (unnumbered token) (initialisers_tree items.items) }
{
    Initialiser::List(InitialiserList {
        node: Node { id: 0, token },
        items,
    })
}

/// A variable, behind its declarator.
fn initialised(
    context: Context,
    declarator: Declarator,
    height: u32,
    tokens: &[Terminal],
) -> Result<(Variable, u32, &[Terminal]), Halt>
    requires low { height ≤ context.room }
    ensures gives { Reads variable_tree result (initialised context declarator height tokens.now) }
    ensures low { IfOk result (λ x. x.1 ≤ context.room + 1) }
{
    let Some(rest) = strip(Punctuator::Assign, tokens) else {
        let variable = Variable {
            declarator,
            initialiser: None,
        };
        return Ok((variable, height + 1, tokens));
    };
    if context.room == 0 {
        return Err(Halt::TooDeep(tokens.len()));
    }
    let (initialiser, high, rest) = initialiser(context, rest)?;
    let variable = Variable {
        declarator,
        initialiser: Some(initialiser),
    };
    Ok((variable, height.max(high) + 1, rest))
}

/// A variable with its initialiser (C11 6.7).
#[tactic(auto, unfolding(qs_parser_grammar::specs::ParseDeclarations::variable))]
fn variable(context: Context, tokens: &[Terminal]) -> Result<(Variable, u32, &[Terminal]), Halt>
    ensures gives { Reads variable_tree result (variable context.room tokens.now) }
    ensures low { IfOk result (λ x. x.1 ≤ context.room + 1) }
{
    let (declarator, height, rest) = declarator(context, tokens)?;
    initialised(context, declarator, height, rest)
}

/// Variables that are declared together, and the semicolon behind them.
#[tactic(auto, using(crate::proofs::CodeDeclarations::variable_steps))]
fn variables(
    context: Context,
    tokens: &[Terminal],
) -> Result<(Vec<Variable>, u32, &[Terminal]), Halt>
    ensures gives { ReadsList variable_tree result (variables context.room) tokens.now }
    ensures low { IfOk result (λ x. x.1 ≤ context.room + 1) }
{
    let mut variables = Vec::new(context.alloc);
    let mut height: u32 = 0;
    let mut rest = tokens;
    for _ in 0..tokens.len() {
        let (item, high, after) = variable(context, rest)?;
        variables.push(item)?;
        height = height.max(high);
        if let Some(behind) = strip(Punctuator::Semicolon, after) {
            return Ok((variables, height, behind));
        }
        rest = expect(Punctuator::Comma, after)?;
    }
    Err(Halt::Unexpected(rest.len()))
}

/// A declaration, behind its type.
pub fn declared(
    context: Context,
    base: Base,
    tokens: &[Terminal],
) -> Result<(Declaration, u32, &[Terminal]), Halt>
    ensures gives { Reads declaration_tree result (declared context.room base tokens.now) }
    ensures low { IfOk result (λ x. x.1 ≤ context.room + 1) }
{
    let (variables, height, rest) = variables(context, tokens)?;
    Ok((Declaration { base, variables }, height, rest))
}

/// A declaration (C11 6.7).
#[tactic(auto, unfolding(qs_parser_grammar::specs::ParseDeclarations::declaration))]
fn declaration(
    context: Context,
    tokens: &[Terminal],
) -> Result<(Declaration, u32, &[Terminal]), Halt>
    ensures gives { Reads declaration_tree result (declaration context.room tokens.now) }
    ensures low { IfOk result (λ x. x.1 ≤ context.room + 1) }
{
    let (base, rest) = type_of(context.alloc, tokens)?;
    declared(context, base, rest)
}

/// A declaration that is at most `context.room` high.
#[tactic(auto, using(crate::proofs::CodeDeclarations::declaration_cases))]
pub fn declaration_within(
    context: Context,
    tokens: &[Terminal],
) -> Result<(Declaration, u32, &[Terminal]), Halt>
    ensures gives { Reads declaration_tree result (declaration_within context.room tokens.now) }
    ensures low { IfOk result (λ x. x.1 ≤ context.room) }
{
    if context.room == 0 {
        return Err(Halt::TooDeep(tokens.len()));
    }
    declaration(context.inner(), tokens)
}

/// Members that are declared together, and the semicolon behind them (C11 6.7.2.1).
#[tactic(auto, using(crate::proofs::CodeDeclarations::declarator_steps))]
fn declarators(
    context: Context,
    tokens: &[Terminal],
) -> Result<(Vec<Declarator>, u32, &[Terminal]), Halt>
    ensures gives { ReadsList declarator_tree result (declarators context.room) tokens.now }
    ensures low { IfOk result (λ x. x.1 ≤ context.room + 1) }
{
    let mut declarators = Vec::new(context.alloc);
    let mut height: u32 = 0;
    let mut rest = tokens;
    for _ in 0..tokens.len() {
        let (item, high, after) = any_declarator(context, rest)?;
        declarators.push(item)?;
        height = height.max(high + 1);
        if let Some(behind) = strip(Punctuator::Semicolon, after) {
            return Ok((declarators, height, behind));
        }
        rest = expect(Punctuator::Comma, after)?;
    }
    Err(Halt::Unexpected(rest.len()))
}

/// A group of members with their type (C11 6.7.2.1).
#[tactic(auto, unfolding(qs_parser_grammar::specs::ParseDeclarations::members))]
fn members(context: Context, tokens: &[Terminal]) -> Result<(Members, u32, &[Terminal]), Halt>
    ensures gives { Reads members_tree result (members context.room tokens.now) }
    ensures low { IfOk result (λ x. x.1 ≤ context.room + 1) }
{
    let (base, rest) = type_of(context.alloc, tokens)?;
    let (declarators, height, rest) = declarators(context, rest)?;
    Ok((Members { base, declarators }, height, rest))
}

/// The groups of a struct's members, and the brace behind them (C11 6.7.2.1).
#[tactic(auto, using(crate::proofs::CodeDeclarations::group_steps))]
pub fn groups(
    context: Context,
    tokens: &[Terminal],
) -> Result<(Vec<Members>, u32, &[Terminal]), Halt>
    ensures gives { ReadsList members_tree result (groups context.room) tokens.now }
    ensures low { IfOk result (λ x. x.1 ≤ context.room + 1) }
{
    let mut groups = Vec::new(context.alloc);
    let mut height: u32 = 0;
    let mut rest = tokens;
    for _ in 0..tokens.len() {
        let (group, high, after) = members(context, rest)?;
        groups.push(group)?;
        height = height.max(high);
        if let Some(behind) = strip(Punctuator::CloseBrace, after) {
            return Ok((groups, height, behind));
        }
        rest = after;
    }
    Err(Halt::Unexpected(rest.len()))
}

/// A parameter, behind its name.
fn bracketed(
    context: Context,
    token: u32,
    base: Base,
    stars: u32,
    name: Option<Name>,
    tokens: &[Terminal],
) -> Result<(Parameter, u32, &[Terminal]), Halt>
    ensures gives { ReadsParameter result (bracketed context token base stars name tokens.now) }
    ensures low { IfOk result (λ x. x.1 ≤ context.room + 1) }
{
    let (lengths, height, rest) = lengths(context, tokens)?;
    let parameter = Parameter {
        node: Node { id: 0, token },
        type_name: TypeName { base, stars },
        name,
        lengths,
    };
    Ok((parameter, height + 1, rest))
}

/// A parameter, behind its stars. `start` is the place of its first token.
fn with_name(
    context: Context,
    start: u32,
    base: Base,
    stars: u32,
    tokens: &[Terminal],
) -> Result<(Parameter, u32, &[Terminal]), Halt>
    ensures gives { ReadsParameter result (with_name context.room start base stars tokens.now) }
    ensures low { IfOk result (λ x. x.1 ≤ context.room + 1) }
{
    match tokens {
        [Terminal::Name(at, name), rest @ ..] => {
            let name = Some(name.copy(context.alloc)?);
            bracketed(context, *at, base, stars, name, rest)
        }
        _ => bracketed(context, start, base, stars, None, tokens),
    }
}

/// Whether `void` stands here with a comma or a parenthesis behind it.
fn is_void_alone(tokens: &[Terminal]) -> bool
    ensures { result ≡ is_void_alone tokens.now }
{
    match tokens {
        [] => false,
        [first, rest @ ..] => {
            is_keyword(Keyword::Void, first)
                && (starts(Punctuator::Comma, rest) || starts(Punctuator::CloseParenthesis, rest))
        }
    }
}

/// What stands behind the first token.
fn without_first(tokens: &[Terminal]) -> &[Terminal]
    ensures { result.now ≡ without_first tokens.now }
{
    match tokens {
        [] => tokens,
        [_, rest @ ..] => rest,
    }
}

/// A parameter (C11 6.7.6.3).
#[tactic(auto, unfolding(qs_parser_grammar::specs::ParseDeclarations::parameter))]
fn parameter(context: Context, tokens: &[Terminal]) -> Result<(Parameter, u32, &[Terminal]), Halt>
    ensures gives { ReadsParameter result (parameter context.room tokens.now) }
    ensures low { IfOk result (λ x. x.1 ≤ context.room + 1) }
{
    if is_void_alone(tokens) {
        return Err(Halt::Unexpected(without_first(tokens).len()));
    }
    let (base, rest) = type_of(context.alloc, tokens)?;
    let (stars, rest) = stars(rest)?;
    with_name(context, place(tokens), base, stars, rest)
}

/// The parameters of a header, and the parenthesis behind them.
#[tactic(auto, using(crate::proofs::CodeDeclarations::parameter_steps))]
fn parameters(
    context: Context,
    tokens: &[Terminal],
) -> Result<(Vec<Parameter>, u32, &[Terminal]), Halt>
    ensures gives { ReadsList parameter_tree result (parameters context.room) tokens.now }
    ensures low { IfOk result (λ x. x.1 ≤ context.room + 1) }
{
    let mut parameters = Vec::new(context.alloc);
    let mut height: u32 = 0;
    let mut rest = tokens;
    for _ in 0..tokens.len() {
        let (item, high, after) = parameter(context, rest)?;
        parameters.push(item)?;
        height = height.max(high);
        if let Some(behind) = strip(Punctuator::CloseParenthesis, after) {
            return Ok((parameters, height, behind));
        }
        rest = expect(Punctuator::Comma, after)?;
    }
    Err(Halt::Unexpected(rest.len()))
}

/// Whether `void` and a parenthesis stand here.
fn is_void_head(tokens: &[Terminal]) -> bool
    ensures { result ≡ is_void_head tokens.now }
{
    match tokens {
        [] => false,
        [first, rest @ ..] => {
            is_keyword(Keyword::Void, first) && starts(Punctuator::CloseParenthesis, rest)
        }
    }
}

/// The parameters of a header and the parenthesis at their end, behind the first (C11 6.7.6.3).
#[tactic(auto, unfolding(qs_parser_grammar::specs::ParseDeclarations::head))]
pub fn head(
    context: Context,
    tokens: &[Terminal],
) -> Result<(Vec<Parameter>, u32, &[Terminal]), Halt>
    ensures gives { Reads (listed parameter_tree) result (head context.room tokens.now) }
    ensures low { IfOk result (λ x. x.1 ≤ context.room + 1) }
{
    if let Some(rest) = strip(Punctuator::CloseParenthesis, tokens) {
        return Ok((Vec::new(context.alloc), 0, rest));
    }
    if is_void_head(tokens) {
        let rest = expect(Punctuator::CloseParenthesis, without_first(tokens))?;
        return Ok((Vec::new(context.alloc), 0, rest));
    }
    parameters(context, tokens)
}
