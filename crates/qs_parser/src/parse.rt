// From tokens to a unit.
ghost use Rattle.std.specs.Prelude.{◌≡◌, ◌+◌, ◌≤◌, ◌<◌, ◌^◌, true, length, []};
ghost use Rattle.std.specs.List.{list_all};
ghost use Rattle.qs_syntax_vocabulary.specs.WellFormed.{is_well_formed};
ghost use Rattle.qs_syntax_vocabulary.specs.Marks.{marked};
ghost use Rattle.qs_lexer.specs.Tokens.{Tokens};
ghost use Rattle.qs_lexer.specs.Terminals.{terminals};
ghost use Rattle.qs_parser.specs.Answers.{Answers, IsDecision};

use crate::syntax_fault::SyntaxFault;
use crate::units::read_unit;
use qs_lexer::terminals;
use qs_parser_expressions::Halt;
use qs_syntax::{Unit, numbered};
use qs_syntax_vocabulary::{Terminal, Token};
use std::alloc::Global;

/// The number of the token at which this many are left of all.
fn number_of(all: usize, left: usize) -> u32
    requires few { all < 2 ^ 32 }
    requires within { left ≤ all }
    ensures { result + left ≡ all }
{
    (all - left) as u32
}

/// The unit that these terminals are read as.
fn unit_of(alloc: Global, tokens: Vec<Terminal>) -> Result<Unit, SyntaxFault>
    requires tokens { list_all is_well_formed tokens.items ≡ true }
    requires unmarked { marked [] tokens.items ≡ tokens.items }
    requires few { length tokens.items < 2 ^ 32 }
    ensures answers { Answers tokens.items result }
    ensures decides { IsDecision tokens.items result }
{
    let all = tokens.len();
    match read_unit(alloc, tokens) {
        Ok((unnumbered, _height)) => Ok(numbered(alloc, unnumbered)?),
        Err(Halt::NoMemory) => Err(SyntaxFault::NoMemory),
        Err(Halt::Unexpected(left)) => Err(SyntaxFault::Unexpected(number_of(all, left))),
        Err(Halt::TooDeep(left)) => Err(SyntaxFault::TooDeep(number_of(all, left))),
    }
}

/// A number of 32 bits: a law, for what its clause says.
fn fits(number: u32)
    ensures { number < 2 ^ 32 }
{
    let _value = number;
}

/// Tokens of a text are fewer than the places that they have: a law, for what its clause says.
fn are_few(text: &[u8], tokens: &[Token])
    requires { Tokens text.now tokens.now }
    ensures { length tokens.now < 2 ^ 32 }
{
    if tokens.is_empty() {
        return;
    }
    fits(tokens[tokens.len() - 1].end);
}

/// The unit that the tokens of a text are read as (C11 6.9), or why there is none of height at most
/// 128. `tokens` are those that the lexer gives for the text.
pub fn unit(alloc: Global, text: &[u8], tokens: &[Token]) -> Result<Unit, SyntaxFault>
    requires tokens { Tokens text.now tokens.now }
    ensures answers { Answers (terminals text.now 0 tokens.now) result }
    ensures decides { IsDecision (terminals text.now 0 tokens.now) result }
{
    are_few(text, tokens);
    let seen = terminals(alloc, text, tokens)?;
    unit_of(alloc, seen)
}
