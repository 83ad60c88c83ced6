// What stands first in the rest of a text, class by class.
ghost use Rattle.std.specs.Prelude.{◌≡◌, Bool, [], ◌∷◌, true};
ghost use Rattle.qs_base.specs.Bytes.{is_digit, is_letter};
ghost use Rattle.qs_base.specs.Characters.{asterisk, double_quote, number_sign};
ghost use Rattle.qs_base.specs.Characters.{single_quote, slash};
ghost use Rattle.qs_lexer.specs.Bytes.{is_space, starts, starts_with};
ghost use Rattle.qs_lexer.specs.Scan.{Opens, punctuator_front};
ghost use Rattle.qs_lexer.specs.Pieces.{Next, Stands, still_fresh, token_or_fault};
ghost use Rattle.qs_lexer.specs.declared.pieces.Class.TheVariants as class;

use crate::bytes::{blanks_then_digit, is_blank, number_length, word_length};
use crate::ends::{comment_end, quote_end};
use crate::fault::FaultKind;
use crate::literals::{character_of, text_of};
use crate::numbers::number_of;
use crate::pieces::{Class, Piece, class_of};
use crate::words::word_of;
use qs_base::line_length;
use qs_syntax_vocabulary::{Punctuator, TokenKind};

fn token_or_fault(n: usize, kind: Result<TokenKind, FaultKind>) -> Piece
    ensures { result ≡ token_or_fault n kind }
{
    match kind {
        Ok(kind) => Piece::Token(n, kind),
        Err(fault) => Piece::Fault(fault),
    }
}

fn still_fresh(fresh: bool, byte: u8) -> bool
    ensures { result ≡ still_fresh fresh (byte ∷ []) }
{
    byte == b'\n' || fresh && is_blank(byte)
}

fn space(fresh: bool, rest: &[u8]) -> Piece
    requires { starts is_space rest.now ≡ true }
    ensures { Stands fresh class.Space rest.now result }
{
    match rest {
        [] => Piece::End,
        [byte, ..] => Piece::White(1, still_fresh(fresh, *byte)),
    }
}

fn line_comment(rest: &[u8]) -> Piece
    requires { Opens slash slash rest.now }
    ensures { (fresh : Bool) → Stands fresh class.LineComment rest.now result }
{
    Piece::White(line_length(rest), false)
}

fn block_comment(rest: &[u8]) -> Piece
    requires { Opens slash asterisk rest.now }
    ensures { (fresh : Bool) → Stands fresh class.BlockComment rest.now result }
{
    let (_, body) = rest.split_at(2);
    match comment_end(body) {
        Some(n) => Piece::White(n + 2, false),
        None => Piece::Fault(FaultKind::OpenComment),
    }
}

fn line_marker(rest: &[u8]) -> Piece
    requires { starts_with number_sign rest.now ≡ true }
    ensures { (fresh : Bool) → Stands fresh class.LineMarker rest.now result }
{
    let (_, behind) = rest.split_at(1);
    if blanks_then_digit(behind) {
        Piece::White(line_length(rest), false)
    } else {
        Piece::Fault(FaultKind::Directive)
    }
}

fn word(rest: &[u8]) -> Piece
    requires { starts is_letter rest.now ≡ true }
    ensures { (fresh : Bool) → Stands fresh class.Word rest.now result }
{
    let n = word_length(rest);
    token_or_fault(n, word_of(&rest[..n]))
}

fn number(rest: &[u8]) -> Piece
    requires { starts is_digit rest.now ≡ true }
    ensures { (fresh : Bool) → Stands fresh class.Number rest.now result }
{
    let n = number_length(rest);
    token_or_fault(n, number_of(&rest[..n]))
}

fn character(rest: &[u8]) -> Piece
    requires { starts_with single_quote rest.now ≡ true }
    ensures { (fresh : Bool) → Stands fresh class.Character rest.now result }
{
    let (_, behind) = rest.split_at(1);
    match quote_end(b'\'', behind) {
        Some(n) => {
            let (literal, _) = rest.split_at(n + 1);
            token_or_fault(n + 1, character_of(literal))
        }
        None => Piece::Fault(FaultKind::OpenText),
    }
}

fn text(rest: &[u8]) -> Piece
    requires { starts_with double_quote rest.now ≡ true }
    ensures { (fresh : Bool) → Stands fresh class.Text rest.now result }
{
    let (_, behind) = rest.split_at(1);
    match quote_end(b'"', behind) {
        Some(n) => {
            let (literal, _) = rest.split_at(n + 1);
            token_or_fault(n + 1, text_of(literal))
        }
        None => Piece::Fault(FaultKind::OpenText),
    }
}

/// The punctuator of the first `n` bytes.
fn punctuator_front(n: usize, rest: &[u8]) -> Option<Punctuator>
    ensures { result ≡ punctuator_front n rest.now }
{
    if n <= rest.len() {
        Punctuator::of(&rest[..n])
    } else {
        None
    }
}

fn punctuator(rest: &[u8]) -> Piece
    ensures { (fresh : Bool) → Stands fresh class.Other rest.now result }
{
    match punctuator_front(3, rest) {
        Some(punctuator) => Piece::Token(3, TokenKind::Punctuator(punctuator)),
        None => match punctuator_front(2, rest) {
            Some(punctuator) => Piece::Token(2, TokenKind::Punctuator(punctuator)),
            None => match punctuator_front(1, rest) {
                Some(punctuator) => Piece::Token(1, TokenKind::Punctuator(punctuator)),
                None => Piece::Fault(FaultKind::BadByte),
            },
        },
    }
}

/// What stands first; `fresh` says that it may be first on its line.
#[tactic(auto, using(crate::proofs::PieceClasses::next_is, crate::proofs::PieceClasses::begun_as))]
pub fn next(fresh: bool, rest: &[u8]) -> Piece
    ensures { Next fresh rest.now result }
{
    match class_of(fresh, rest) {
        Class::End => Piece::End,
        Class::Space => space(fresh, rest),
        Class::LineComment => line_comment(rest),
        Class::BlockComment => block_comment(rest),
        Class::LineMarker => line_marker(rest),
        Class::Word => word(rest),
        Class::Number => number(rest),
        Class::Character => character(rest),
        Class::Text => text(rest),
        Class::Other => punctuator(rest),
    }
}
