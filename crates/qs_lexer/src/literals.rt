// Characters and texts.
ghost use Rattle.std.specs.Prelude.{◌≡◌, ◌≤◌, ◌+◌, ◌||◌, [], ◌∷◌, ◌++◌, OnOk, length};
ghost use Rattle.qs_lexer.specs.Literals.{byte_values, character_of, character_of_elements};
ghost use Rattle.qs_lexer.specs.Literals.{character_with, element_length, elements};
ghost use Rattle.qs_lexer.specs.Literals.{elements_behind, first_element, escape, escape_length};
ghost use Rattle.qs_lexer.specs.Literals.{hexadecimal_count, hexadecimal_escape, inside, is_bad};
ghost use Rattle.qs_lexer.specs.Literals.{is_wide, octal_count, octal_escape, simple};
ghost use Rattle.qs_lexer.specs.Literals.{simple_escape, text_of, text_with, valued};
ghost use Rattle.qs_lexer.specs.Literals.{element_values};
ghost use Rattle.qs_lexer.specs.Numbers.{value_of};

use crate::bytes::starts_with;
use crate::fault::FaultKind;
use crate::numbers::{digit_value, value_of};
use qs_base::NoMemory;
use qs_syntax_vocabulary::TokenKind;

/// An element of a literal (C11 6.4.4.4).
#[derive(Clone, Copy)]
pub enum Element {
    /// A byte, or an escape that stands for it.
    Byte(u8),
    /// An escape with a value over 255.
    Wide,
    /// A backslash that begins no escape.
    Bad,
}

/// The simple escapes and their values (C11 5.2.2, 6.4.4.4).
const SIMPLE_ESCAPES: [(u8, u8); 11] = [
    (b'\'', b'\''),
    (b'"', b'"'),
    (b'?', b'?'),
    (b'\\', b'\\'),
    (b'a', 7),
    (b'b', 8),
    (b'f', 12),
    (b'n', b'\n'),
    (b'r', b'\r'),
    (b't', b'\t'),
    (b'v', 11),
];

#[tactic(auto, unfolding(crate::specs::Literals::simple_escape))]
fn simple_escape(byte: u8) -> Option<u8>
    ensures { result ≡ simple_escape byte }
{
    SIMPLE_ESCAPES
        .iter()
        .find(|row| row.0 == byte)
        .map(|row| row.1)
}

fn octal_count(bytes: &[u8]) -> usize
    ensures count { result ≡ octal_count bytes.now }
    ensures within { result ≤ length bytes.now }
{
    bytes
        .iter()
        .take(3)
        .take_while(|byte| digit_value(**byte) < 8)
        .count()
}

fn hexadecimal_count(bytes: &[u8]) -> usize
    ensures count { result ≡ hexadecimal_count bytes.now }
    ensures within { result ≤ length bytes.now }
{
    bytes
        .iter()
        .take_while(|byte| digit_value(**byte) < 16)
        .count()
}

/// The element of these digits' value.
fn valued(base: u32, digits: &[u8]) -> Element
    requires low { 1 ≤ base }
    requires high { base ≤ 16 }
    ensures { result ≡ valued (value_of base digits.now) }
{
    match value_of(base, digits) {
        Some(value) => {
            if value < 256 {
                Element::Byte(value as u8)
            } else {
                Element::Wide
            }
        }
        None => Element::Wide,
    }
}

fn hexadecimal_escape(bytes: &[u8]) -> Element
    ensures { result ≡ hexadecimal_escape bytes.now }
{
    let count = hexadecimal_count(bytes);
    if count == 0 {
        Element::Bad
    } else {
        valued(16, &bytes[..count])
    }
}

fn octal_escape(bytes: &[u8]) -> Element
    ensures { result ≡ octal_escape bytes.now }
{
    let count = octal_count(bytes);
    valued(8, &bytes[..count])
}

fn simple(bytes: &[u8]) -> Element
    ensures { result ≡ simple bytes.now }
{
    match bytes {
        [] => Element::Bad,
        [byte, ..] => match simple_escape(*byte) {
            Some(value) => Element::Byte(value),
            None => Element::Bad,
        },
    }
}

/// What the bytes behind a backslash stand for.
fn escape(bytes: &[u8]) -> Element
    ensures { result ≡ escape bytes.now }
{
    if starts_with(b'x', bytes) {
        hexadecimal_escape(&bytes[1..])
    } else if octal_count(bytes) > 0 {
        octal_escape(bytes)
    } else {
        simple(bytes)
    }
}

/// How many bytes behind a backslash belong to its escape.
fn escape_length(bytes: &[u8]) -> usize
    ensures count { result ≡ escape_length bytes.now }
    ensures within { result ≤ length bytes.now + 1 }
{
    if starts_with(b'x', bytes) {
        1 + hexadecimal_count(&bytes[1..])
    } else if octal_count(bytes) > 0 {
        octal_count(bytes)
    } else {
        1
    }
}

/// The first element.
fn first_element(bytes: &[u8]) -> Element
    ensures { result ≡ first_element bytes.now }
{
    match bytes {
        [] => Element::Bad,
        [first, others @ ..] => {
            if *first == b'\\' {
                escape(others)
            } else {
                Element::Byte(*first)
            }
        }
    }
}

/// How many bytes the first element takes.
fn element_length(bytes: &[u8]) -> usize
    ensures count { result ≡ element_length bytes.now }
    ensures within { result ≤ length bytes.now + 1 }
{
    match bytes {
        [] => 1,
        [first, others @ ..] => {
            if *first == b'\\' {
                1 + escape_length(others)
            } else {
                1
            }
        }
    }
}

/// What stands between the quotes.
fn inside(literal: &[u8]) -> &[u8]
    ensures { result.now ≡ inside literal.now }
{
    if literal.len() < 2 {
        return &[];
    }
    &literal[1..literal.len() - 1]
}

fn character_with(element: Element) -> Result<TokenKind, FaultKind>
    ensures { result ≡ character_with element }
{
    match element {
        Element::Byte(value) => Ok(TokenKind::Character(value)),
        Element::Wide => Err(FaultKind::WideLiteral),
        Element::Bad => Err(FaultKind::BadLiteral),
    }
}

fn character_in(body: &[u8]) -> Result<TokenKind, FaultKind>
    ensures { result ≡ character_of_elements (elements_behind 0 body.now) }
{
    match body {
        [] => Err(FaultKind::BadLiteral),
        [_, ..] => {
            if element_length(body) < body.len() {
                Err(FaultKind::BadLiteral)
            } else {
                character_with(first_element(body))
            }
        }
    }
}

/// The character that a literal is (C11 6.4.4.4).
pub fn character_of(literal: &[u8]) -> Result<TokenKind, FaultKind>
    ensures { result ≡ character_of literal.now }
{
    character_in(inside(literal))
}

fn is_bad(element: Element) -> bool
    ensures { result ≡ is_bad element }
{
    match element {
        Element::Bad => true,
        Element::Wide => false,
        Element::Byte(_) => false,
    }
}

fn is_wide(element: Element) -> bool
    ensures { result ≡ is_wide element }
{
    match element {
        Element::Bad => false,
        Element::Wide => true,
        Element::Byte(_) => false,
    }
}

fn or_wide(wide: bool, element: Element) -> bool
    ensures { result ≡ (wide || is_wide element) }
{
    wide || is_wide(element)
}

fn text_in(body: &[u8]) -> Result<TokenKind, FaultKind>
    ensures { result ≡ text_with (elements_behind 0 body.now) }
{
    let mut wide = false;
    let mut at = 0;
    while at < body.len() {
        let (_, rest) = body.split_at(at);
        let element = first_element(rest);
        if is_bad(element) {
            return Err(FaultKind::BadLiteral);
        }
        wide = or_wide(wide, element);
        at += element_length(rest);
    }
    if wide {
        Err(FaultKind::WideLiteral)
    } else {
        Ok(TokenKind::Text)
    }
}

/// What a literal in double quotes is: a text, if each of its elements is a byte (C11 6.4.5).
pub fn text_of(literal: &[u8]) -> Result<TokenKind, FaultKind>
    ensures { result ≡ text_of literal.now }
{
    text_in(inside(literal))
}

fn put_element(element: Element, into: &mut Vec<u8>) -> Result<(), NoMemory>
    ensures { OnOk result (into.new.items ≡ into.old.items ++ byte_values (element ∷ [])) }
{
    match element {
        Element::Byte(value) => Ok(into.push(value)?),
        Element::Wide => Ok(()),
        Element::Bad => Ok(()),
    }
}

fn put_elements(body: &[u8], into: &mut Vec<u8>) -> Result<(), NoMemory>
    ensures { OnOk result (into.new.items ≡ into.old.items ++ element_values body.now) }
{
    let mut at = 0;
    while at < body.len() {
        let (_, rest) = body.split_at(at);
        put_element(first_element(rest), into)?;
        at += element_length(rest);
    }
    Ok(())
}

/// Puts the bytes that a text literal stands for behind those of `into`: the values of its
/// elements, its escapes resolved (C11 6.4.5). The literal is the slice of a `Text` token, with its
/// quotes.
pub fn text_bytes(literal: &[u8], into: &mut Vec<u8>) -> Result<(), NoMemory>
    ensures appends { OnOk result (into.new.items ≡ into.old.items ++ elements literal.now) }
{
    put_elements(inside(literal), into)
}
