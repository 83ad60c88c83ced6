// Tokens of a text (C11 6.4).
use crate::punctuator::Punctuator;
use qs_base::Keyword;

/// A token: what it is, and the bytes `start` to before `end` of the text that it stands at.
#[derive(Clone, Copy)]
pub struct Token {
    /// What it is.
    pub kind: TokenKind,
    /// The number of its first byte, from 0.
    pub start: u32,
    /// The number of the byte behind its last.
    pub end: u32,
}

/// What a token is.
#[derive(Clone, Copy, Debug)]
pub enum TokenKind {
    /// A name (C11 6.4.2.1), which is none of the keywords. Its bytes are those of the text.
    Name,
    /// A keyword (C11 6.4.1).
    Keyword(Keyword),
    /// An integer literal (C11 6.4.4.1): its value, and whether it is `unsigned` and no `int`.
    Number(u32, bool),
    /// A character (C11 6.4.4.4), of type `int`: its value.
    Character(u8),
    /// A text in double quotes (C11 6.4.5). Its bytes are those of the text, with their quotes and
    /// escapes.
    Text,
    /// A punctuator (C11 6.4.6).
    Punctuator(Punctuator),
}
