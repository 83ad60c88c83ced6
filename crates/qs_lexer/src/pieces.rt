// What stands first in the rest of a text.
ghost use Rattle.std.specs.Prelude.{◌≡◌};
ghost use Rattle.qs_lexer.specs.Pieces.{class_of};

use crate::bytes::{is_space, starts_with};
use crate::fault::FaultKind;
use qs_base::{is_digit, is_letter};
use qs_syntax_vocabulary::TokenKind;

/// How the rest of a text begins.
#[derive(Clone, Copy)]
pub enum Class {
    /// Nothing is left.
    End,
    /// A byte of white space.
    Space,
    /// `//`.
    LineComment,
    /// `/*`.
    BlockComment,
    /// A `#` that is first on its line.
    LineMarker,
    /// A letter or `_`.
    Word,
    /// A digit.
    Number,
    /// A single quote.
    Character,
    /// A double quote.
    Text,
    /// Another byte.
    Other,
}

/// What stands first in the rest of a text.
#[derive(Clone, Copy)]
pub enum Piece {
    /// Nothing is left.
    End,
    /// So many bytes of white space, and whether what follows may be first on its line.
    White(usize, bool),
    /// A token of so many bytes.
    Token(usize, TokenKind),
    /// A fault.
    Fault(FaultKind),
}

/// How the rest begins; `fresh` says that it may be first on its line.
pub fn class_of(fresh: bool, rest: &[u8]) -> Class
    ensures { result ≡ class_of fresh rest.now }
{
    match rest {
        [] => Class::End,
        [first, others @ ..] => {
            if is_space(*first) {
                Class::Space
            } else if *first == b'/' && starts_with(b'/', others) {
                Class::LineComment
            } else if *first == b'/' && starts_with(b'*', others) {
                Class::BlockComment
            } else if fresh && *first == b'#' {
                Class::LineMarker
            } else if is_letter(*first) {
                Class::Word
            } else if is_digit(*first) {
                Class::Number
            } else if *first == b'\'' {
                Class::Character
            } else if *first == b'"' {
                Class::Text
            } else {
                Class::Other
            }
        }
    }
}
