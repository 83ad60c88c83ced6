// Integer literals.
ghost use Rattle.std.specs.Prelude.{◌≡◌, ◌<◌, ◌≤◌, ◌^◌, SomeIff, length};
ghost use Rattle.qs_lexer.specs.Numbers.{are_digits, digit_value, is_hexadecimal, number_of};
ghost use Rattle.qs_lexer.specs.Numbers.{number_without_suffix, typed, value_of};

use crate::bytes::starts_with;
use crate::fault::FaultKind;
use qs_base::{is_between, is_digit};
use qs_syntax_vocabulary::TokenKind;

/// The value of a digit, or 16.
pub fn digit_value(byte: u8) -> u32
    ensures { result ≡ digit_value byte }
{
    if is_digit(byte) {
        (byte - b'0') as u32
    } else if is_between(b'a', b'f', byte) {
        (byte - b'a') as u32 + 10
    } else if is_between(b'A', b'F', byte) {
        (byte - b'A') as u32 + 10
    } else {
        16
    }
}

fn are_digits(base: u32, bytes: &[u8]) -> bool
    ensures { result ≡ are_digits base bytes.now }
{
    bytes.iter().all(|byte| digit_value(*byte) < base)
}

/// The value of these digits, where it has at most 32 bits.
pub fn value_of(base: u32, digits: &[u8]) -> Option<u32>
    requires low { 1 ≤ base }
    requires high { base ≤ 16 }
    ensures { SomeIff result (value_of base digits.now < 2 ^ 32) (value_of base digits.now) }
{
    let mut value: u64 = 0;
    for byte in digits {
        value = value * base as u64 + digit_value(*byte) as u64;
        if value >= 0x1_0000_0000 {
            return None;
        }
    }
    Some(value as u32)
}

fn is_hexadecimal(literal: &[u8]) -> bool
    ensures { result ≡ is_hexadecimal literal.now }
{
    match literal {
        [] => false,
        [first, others @ ..] => {
            *first == b'0' && (starts_with(b'x', others) || starts_with(b'X', others))
        }
    }
}

fn typed(base: u32, suffix: bool, value: u32) -> Result<TokenKind, FaultKind>
    ensures { result ≡ typed base suffix value }
{
    if value < 0x8000_0000 {
        Ok(TokenKind::Number(value, suffix))
    } else if suffix || base != 10 {
        Ok(TokenKind::Number(value, true))
    } else {
        Err(FaultKind::WideLiteral)
    }
}

fn number_without_suffix(literal: &[u8], suffix: bool) -> Result<TokenKind, FaultKind>
    ensures { result ≡ number_without_suffix literal.now suffix }
{
    let hexadecimal = is_hexadecimal(literal);
    let base = if hexadecimal {
        16
    } else if starts_with(b'0', literal) {
        8
    } else {
        10
    };
    let digits = if hexadecimal { &literal[2..] } else { literal };
    if digits.is_empty() || !are_digits(base, digits) {
        return Err(FaultKind::BadLiteral);
    }
    match value_of(base, digits) {
        Some(value) => typed(base, suffix, value),
        None => Err(FaultKind::WideLiteral),
    }
}

/// The number that a literal is (C11 6.4.4.1).
pub fn number_of(literal: &[u8]) -> Result<TokenKind, FaultKind>
    requires { 0 < length literal.now }
    ensures { result ≡ number_of literal.now }
{
    let last = literal[literal.len() - 1];
    if last == b'u' || last == b'U' {
        return number_without_suffix(&literal[..literal.len() - 1], true);
    }
    number_without_suffix(literal, false)
}
