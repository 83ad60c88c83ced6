// How much room lists take on one line.
ghost use Rattle.std.specs.Prelude.{◌≡◌, map, reverse, IfOk, length};
ghost use Rattle.std.specs.Fmt.{decimal, signed_decimal};
ghost use Rattle.qs_sexpr.specs.Marks.{first_of, list_size, list_sizes, mark_of, others_of};
ghost use Rattle.qs_sexpr.specs.Pages.{AddsSize, AddsToken};

use crate::token::Token;
use itoa::Buffer;
use qs_base::NoMemory;
use std::alloc::Global;

/// A size that is wider than a line.
const WIDE: usize = 101;

/// How many bytes a number has.
fn number_size(value: i64) -> usize
    ensures { result ≡ length (signed_decimal value) }
{
    let mut digits = Buffer::new();
    digits.format(value).len()
}

fn natural_size(value: u64) -> usize
    ensures { result ≡ length (decimal value) }
{
    let mut digits = Buffer::new();
    digits.format(value).len()
}

/// Takes the first size off, which is the last of the Vec; 0 where there is none.
pub fn take_size(left: &mut Vec<usize>) -> usize
    ensures value { result ≡ first_of (reverse left.old.items) }
    ensures left { reverse left.new.items ≡ others_of (reverse left.old.items) }
{
    match left.pop() {
        Some(size) => size,
        None => 0,
    }
}

/// Adds the size of a part, and a blank, to what is left in the innermost list.
fn add(left: &mut Vec<usize>, size: usize) -> Result<(), NoMemory>
    ensures { IfOk result (λ _. AddsSize size left.old.items left.new.items) }
{
    let others = take_size(left);
    let sum = size.min(WIDE) + 1 + others.min(WIDE);
    left.push(sum.min(WIDE))?;
    Ok(())
}

/// What a list has whose parts have so many bytes, each with a blank before it.
fn list_size(parts: usize) -> usize
    ensures { result ≡ list_size parts }
{
    parts.min(WIDE).saturating_sub(1) + 2
}

fn put_token(
    token: Token<'_>,
    left: &mut Vec<usize>,
    found: &mut Vec<usize>,
) -> Result<(), NoMemory>
    ensures { AddsToken token.entry left.old left.new found.old found.new result }
{
    match token {
        Token::Open => {
            let size = list_size(take_size(left));
            found.push(size)?;
            add(left, size)
        }
        Token::Close => {
            left.push(0)?;
            Ok(())
        }
        Token::Symbol(bytes) => add(left, bytes.len()),
        Token::Number(value) => add(left, number_size(value)),
        Token::Natural(value) => add(left, natural_size(value)),
    }
}

/// The sizes of the lists that begin among these tokens, the last first.
pub fn list_sizes(alloc: Global, tokens: &[Token<'_>]) -> Result<Vec<usize>, NoMemory>
    ensures { IfOk result (λ found. reverse found.items ≡ list_sizes (map mark_of tokens.now)) }
{
    let mut left = Vec::new(alloc);
    let mut found = Vec::new(alloc);
    let mut at = tokens.len();
    while at > 0 {
        at -= 1;
        put_token(tokens[at], &mut left, &mut found)?;
    }
    Ok(found)
}
