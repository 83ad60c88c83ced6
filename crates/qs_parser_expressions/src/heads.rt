// What tokens begin with.
ghost use Rattle.std.specs.Prelude.{◌≡◌, Ok, is_some, IfSome};
ghost use Rattle.qs_syntax.specs.ReadsTypes.{Plain, Any};
ghost use Rattle.qs_syntax.specs.Reads.{place};
ghost use Rattle.qs_syntax_vocabulary.specs.Operators.{access_of, assign_of, binary_of};
ghost use Rattle.qs_parser_grammar.specs.Heads.{is_punctuator, is_keyword, starts, starts_with};
ghost use Rattle.qs_parser_grammar.specs.Heads.{starts_step, operator_at, starts_type_name};
ghost use Rattle.qs_parser_grammar.specs.Heads.{begins_type};
ghost use Rattle.qs_parser_grammar.specs.Parse.{expect, expect_name, begins_one, begins_cast};
ghost use Rattle.qs_parser_grammar.specs.Parse.{starts_suffix, operator_of_level};
ghost use Rattle.qs_parser_expressions.specs.View.{Gives, rest_of, name_of};
ghost use Rattle.qs_parser_expressions.specs.Heads.{opens_or_steps};

use crate::halt::Halt;
use qs_base::Name;
use qs_syntax_vocabulary::{
    Access, AssignmentOperator, BinaryOperator, Keyword, Punctuator, Terminal, UnaryOperator,
};
use std::alloc::Global;

/// Whether the token is this punctuator.
pub fn is_punctuator(punctuator: Punctuator, token: &Terminal) -> bool
    ensures { result ≡ is_punctuator punctuator token.now }
{
    match token {
        Terminal::Punctuator(_, other) => *other == punctuator,
        Terminal::Name(..)
        | Terminal::TypeName(..)
        | Terminal::Keyword(..)
        | Terminal::Constant { .. }
        | Terminal::Text(..) => false,
    }
}

/// Whether the token is this keyword.
pub fn is_keyword(keyword: Keyword, token: &Terminal) -> bool
    ensures { result ≡ is_keyword keyword token.now }
{
    match token {
        Terminal::Keyword(_, other) => *other == keyword,
        Terminal::Name(..)
        | Terminal::TypeName(..)
        | Terminal::Punctuator(..)
        | Terminal::Constant { .. }
        | Terminal::Text(..) => false,
    }
}

/// Whether this punctuator stands first.
pub fn starts(punctuator: Punctuator, tokens: &[Terminal]) -> bool
    ensures { result ≡ starts punctuator tokens.now }
{
    match tokens {
        [] => false,
        [first, ..] => is_punctuator(punctuator, first),
    }
}

/// Whether this keyword stands first.
pub fn starts_with(keyword: Keyword, tokens: &[Terminal]) -> bool
    ensures { result ≡ starts_with keyword tokens.now }
{
    match tokens {
        [] => false,
        [first, ..] => is_keyword(keyword, first),
    }
}

/// What stands behind this punctuator.
pub fn expect(punctuator: Punctuator, tokens: &[Terminal]) -> Result<&[Terminal], Halt>
    ensures { Gives rest_of result (expect punctuator tokens.now) }
{
    match tokens {
        [] => Err(Halt::Unexpected(0)),
        [first, rest @ ..] => {
            if is_punctuator(punctuator, first) {
                Ok(rest)
            } else {
                Err(Halt::Unexpected(tokens.len()))
            }
        }
    }
}

/// What stands behind this punctuator, if it stands first.
pub fn strip(punctuator: Punctuator, tokens: &[Terminal]) -> Option<&[Terminal]>
    ensures first { is_some result ≡ starts punctuator tokens.now }
    ensures rest { IfSome result (λ rest. expect punctuator tokens.now ≡ Ok (tt, rest.now)) }
{
    match tokens {
        [] => None,
        [first, rest @ ..] => {
            if is_punctuator(punctuator, first) {
                Some(rest)
            } else {
                None
            }
        }
    }
}

/// A name that is no type's: the number of its token, its bytes, and what stands behind it.
pub fn expect_name(alloc: Global, tokens: &[Terminal]) -> Result<(u32, Name, &[Terminal]), Halt>
    ensures { Gives name_of result (expect_name Plain tokens.now) }
{
    match tokens {
        [Terminal::Name(at, name), rest @ ..] => Ok((*at, name.copy(alloc)?, rest)),
        _ => Err(Halt::Unexpected(tokens.len())),
    }
}

/// A name, a type's or not: the number of its token, its bytes, and what stands behind it.
pub fn expect_any_name(alloc: Global, tokens: &[Terminal]) -> Result<(u32, Name, &[Terminal]), Halt>
    ensures { Gives name_of result (expect_name Any tokens.now) }
{
    match tokens {
        [Terminal::Name(at, name), rest @ ..] => Ok((*at, name.copy(alloc)?, rest)),
        [Terminal::TypeName(at, name), rest @ ..] => Ok((*at, name.copy(alloc)?, rest)),
        _ => Err(Halt::Unexpected(tokens.len())),
    }
}

/// The number of the first token.
pub fn place(tokens: &[Terminal]) -> u32
    ensures { result ≡ place tokens.now }
{
    match tokens {
        [] => 0,
        [
            Terminal::Name(at, _)
            | Terminal::TypeName(at, _)
            | Terminal::Keyword(at, _)
            | Terminal::Constant { at, .. }
            | Terminal::Text(at, _)
            | Terminal::Punctuator(at, _),
            ..
        ] => *at,
    }
}

/// The operator between two operands that stands first, if one does.
pub fn binary_at(tokens: &[Terminal]) -> Option<BinaryOperator>
    ensures { result ≡ operator_at binary_of tokens.now }
{
    match tokens {
        [Terminal::Punctuator(_, punctuator), ..] => BinaryOperator::of(*punctuator),
        _ => None,
    }
}

/// The assignment that stands first, if one does.
pub fn assign_at(tokens: &[Terminal]) -> Option<AssignmentOperator>
    ensures { result ≡ operator_at assign_of tokens.now }
{
    match tokens {
        [Terminal::Punctuator(_, punctuator), ..] => AssignmentOperator::of(*punctuator),
        _ => None,
    }
}

/// The access to a member that stands first, if one does.
pub fn access_at(tokens: &[Terminal]) -> Option<Access>
    ensures { result ≡ operator_at access_of tokens.now }
{
    match tokens {
        [Terminal::Punctuator(_, punctuator), ..] => Access::of(*punctuator),
        _ => None,
    }
}

/// The operator between two operands of the level behind this one that stands first, if one does.
pub fn level_operator_at(level: u8, tokens: &[Terminal]) -> Option<BinaryOperator>
    ensures { result ≡ operator_of_level level (operator_at binary_of tokens.now) }
{
    match binary_at(tokens) {
        Some(operator) if operator.precedence() == u32::from(level) + 1 => Some(operator),
        _ => None,
    }
}

/// Whether a step by one stands first (C11 6.5.2.4, 6.5.3.1).
fn starts_step(tokens: &[Terminal]) -> bool
    ensures { result ≡ starts_step tokens.now }
{
    starts(Punctuator::Increment, tokens) || starts(Punctuator::Decrement, tokens)
}

/// Whether a parenthesis or a step by one stands first.
fn opens_or_steps(tokens: &[Terminal]) -> bool
    ensures { result ≡ opens_or_steps tokens.now }
{
    starts(Punctuator::OpenParenthesis, tokens) || starts_step(tokens)
}

/// Whether an expression begins here.
pub fn begins_one(tokens: &[Terminal]) -> bool
    ensures { result ≡ begins_one tokens.now }
{
    match tokens {
        [] => false,
        [Terminal::TypeName(..), ..] => false,
        [Terminal::Keyword(..), ..] => starts_with(Keyword::Sizeof, tokens),
        [Terminal::Punctuator(_, punctuator), ..] => {
            UnaryOperator::of(*punctuator).is_some() || opens_or_steps(tokens)
        }
        _ => true,
    }
}

/// Whether a suffix stands first (C11 6.5.2).
pub fn starts_suffix(tokens: &[Terminal]) -> bool
    ensures { result ≡ starts_suffix tokens.now }
{
    starts(Punctuator::OpenBracket, tokens) || access_at(tokens).is_some() || starts_step(tokens)
}

/// Whether a parenthesis stands before a type.
pub fn begins_cast(tokens: &[Terminal]) -> bool
    ensures { result ≡ begins_cast tokens.now }
{
    match tokens {
        [] => false,
        [first, rest @ ..] => is_punctuator(Punctuator::OpenParenthesis, first)
            && begins_type(rest),
    }
}

/// Whether the name of a type stands first.
fn starts_type_name(tokens: &[Terminal]) -> bool
    ensures { result ≡ starts_type_name tokens.now }
{
    match tokens {
        [Terminal::TypeName(..), ..] => true,
        _ => false,
    }
}

/// Whether a type begins here, without `static` before it (C11 6.7.2, 6.7.3).
pub fn begins_type(tokens: &[Terminal]) -> bool
    ensures { result ≡ begins_type tokens.now }
{
    starts_type_name(tokens)
        || starts_with(Keyword::Const, tokens)
        || starts_with(Keyword::Void, tokens)
        || starts_with(Keyword::Int, tokens)
        || starts_with(Keyword::Char, tokens)
        || starts_with(Keyword::Unsigned, tokens)
        || starts_with(Keyword::Signed, tokens)
        || starts_with(Keyword::Struct, tokens)
}
