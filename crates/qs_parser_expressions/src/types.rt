// Types (C11 6.7.2, 6.7.3, 6.7.6, 6.7.7).
ghost use Rattle.std.specs.Prelude.{◌≡◌, Ok};
ghost use Rattle.qs_parser_grammar.specs.Parse.{skip_consts, after_unsigned, after_signed, tagged};
ghost use Rattle.qs_parser_grammar.specs.Parse.{named_type, base};
ghost use Rattle.qs_parser_grammar.specs.Parse.{type, stars_from, stars, type_name};
ghost use Rattle.qs_parser_grammar.specs.ParseDeclarations.{skip_prefixes, outer_type};
ghost use Rattle.qs_parser_expressions.specs.View.{Gives, base_of, stars_of, type_name_of};

use crate::halt::Halt;
use crate::heads::{expect_any_name, is_keyword, is_punctuator, starts};
use qs_syntax::{Base, TypeName};
use qs_syntax_vocabulary::{Keyword, Punctuator, Terminal};
use std::alloc::Global;

/// What stands behind any number of `const`.
pub fn skip_consts(tokens: &[Terminal]) -> &[Terminal]
    ensures { result.now ≡ skip_consts tokens.now }
{
    let mut rest = tokens;
    while let [first, after @ ..] = rest {
        if !is_keyword(Keyword::Const, first) {
            return rest;
        }
        rest = after;
    }
    rest
}

/// The type that `unsigned` begins.
fn after_unsigned(tokens: &[Terminal]) -> Result<(Base, &[Terminal]), Halt>
    ensures { Gives base_of result (after_unsigned tokens.now) }
{
    match tokens {
        [first, rest @ ..] if is_keyword(Keyword::Int, first) => Ok((Base::Unsigned, rest)),
        [first, rest @ ..] if is_keyword(Keyword::Char, first) => Ok((Base::Char, rest)),
        _ => Ok((Base::Unsigned, tokens)),
    }
}

/// The type that `signed` begins.
fn after_signed(tokens: &[Terminal]) -> Result<(Base, &[Terminal]), Halt>
    ensures { Gives base_of result (after_signed tokens.now) }
{
    match tokens {
        [first, rest @ ..] if is_keyword(Keyword::Int, first) => Ok((Base::Int, rest)),
        _ => Ok((Base::Int, tokens)),
    }
}

/// The tag of a struct, behind `struct`.
fn tagged(alloc: Global, tokens: &[Terminal]) -> Result<(Base, &[Terminal]), Halt>
    ensures { Gives base_of result (tagged tokens.now) }
{
    let (_at, name, rest) = expect_any_name(alloc, tokens)?;
    Ok((Base::Struct(name), rest))
}

/// The name of a type.
fn named_type(alloc: Global, tokens: &[Terminal]) -> Result<(Base, &[Terminal]), Halt>
    ensures { Gives base_of result (named_type tokens.now) }
{
    match tokens {
        [Terminal::TypeName(_, name), rest @ ..] => Ok((Base::Named(name.copy(alloc)?), rest)),
        _ => Err(Halt::Unexpected(tokens.len())),
    }
}

/// What a type begins with, without `const` (C11 6.7.2).
pub fn base(alloc: Global, tokens: &[Terminal]) -> Result<(Base, &[Terminal]), Halt>
    ensures { Gives base_of result (base tokens.now) }
{
    match tokens {
        [] => Err(Halt::Unexpected(0)),
        [first, rest @ ..] => {
            if is_keyword(Keyword::Void, first) {
                Ok((Base::Void, rest))
            } else if is_keyword(Keyword::Int, first) {
                Ok((Base::Int, rest))
            } else if is_keyword(Keyword::Char, first) {
                Ok((Base::Char, rest))
            } else if is_keyword(Keyword::Unsigned, first) {
                after_unsigned(rest)
            } else if is_keyword(Keyword::Signed, first) {
                after_signed(rest)
            } else if is_keyword(Keyword::Struct, first) {
                tagged(alloc, rest)
            } else {
                named_type(alloc, tokens)
            }
        }
    }
}

/// A type without stars, with `const` on both sides (C11 6.7.2, 6.7.3).
#[tactic(auto, using(crate::proofs::CodeTypes::type_is))]
pub fn type_of(alloc: Global, tokens: &[Terminal]) -> Result<(Base, &[Terminal]), Halt>
    ensures { Gives base_of result (type tokens.now) }
{
    let (base, rest) = base(alloc, skip_consts(tokens))?;
    Ok((base, skip_consts(rest)))
}

/// What stands behind any number of `const` and `static`.
fn skip_prefixes(tokens: &[Terminal]) -> &[Terminal]
    ensures { result.now ≡ skip_prefixes tokens.now }
{
    let mut rest = tokens;
    while let [first, after @ ..] = rest {
        if !is_keyword(Keyword::Const, first) && !is_keyword(Keyword::Static, first) {
            return rest;
        }
        rest = after;
    }
    rest
}

/// A type without stars at file scope, with `const` on both sides and `static` before it (C11
/// 6.7.1).
#[tactic(auto, unfolding(qs_parser_grammar::specs::ParseDeclarations::outer_type))]
pub fn outer_type(alloc: Global, tokens: &[Terminal]) -> Result<(Base, &[Terminal]), Halt>
    ensures { Gives base_of result (outer_type tokens.now) }
{
    let (base, rest) = base(alloc, skip_prefixes(tokens))?;
    Ok((base, skip_consts(rest)))
}

/// The count of stars behind one, and what stands behind them and each `const` among them. A count
/// that fits no `u32` is `NoMemory`; no text that fits memory has it.
fn stars_from(tokens: &[Terminal]) -> Result<(u32, &[Terminal]), Halt>
    ensures { Gives stars_of result (Ok (stars_from 0 tokens.now)) }
{
    let mut count: u32 = 0;
    let mut rest = tokens;
    while let [first, after @ ..] = rest {
        if is_punctuator(Punctuator::Star, first) {
            count = count.checked_add(1).ok_or(Halt::NoMemory)?;
        } else if !is_keyword(Keyword::Const, first) {
            return Ok((count, rest));
        }
        rest = after;
    }
    Ok((count, rest))
}

/// The count of the stars, each with any number of `const` behind it (C11 6.7.6.1), and what
/// follows.
#[tactic(auto, unfolding(qs_parser_grammar::specs::Parse::stars))]
pub fn stars(tokens: &[Terminal]) -> Result<(u32, &[Terminal]), Halt>
    ensures { Gives stars_of result (Ok (stars tokens.now)) }
{
    if starts(Punctuator::Star, tokens) {
        stars_from(tokens)
    } else {
        Ok((0, tokens))
    }
}

/// The name of a type (C11 6.7.7).
#[tactic(auto, unfolding(qs_parser_grammar::specs::Parse::type_name))]
pub fn type_name(alloc: Global, tokens: &[Terminal]) -> Result<(TypeName, &[Terminal]), Halt>
    ensures { Gives type_name_of result (type_name tokens.now) }
{
    let (base, rest) = type_of(alloc, tokens)?;
    let (stars, rest) = stars(rest)?;
    Ok((TypeName { base, stars }, rest))
}
