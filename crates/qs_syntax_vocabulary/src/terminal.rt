// Tokens as the grammar sees them.
use crate::punctuator::Punctuator;
use crate::text::Text;
use qs_base::{Keyword, Name};

/// A token as the grammar sees it. The number of the token comes first.
#[derive(Drop)]
pub enum Terminal {
    /// A name that is no type's.
    Name(u32, Name),
    /// The name of a type, which a `typedef` before it declares (C11 6.7.8). The lexer knows none.
    TypeName(u32, Name),
    /// A keyword.
    Keyword(u32, Keyword),
    /// A number or character.
    Constant {
        /// The number of the token.
        at: u32,
        /// Its value.
        value: u32,
        /// Whether it is `unsigned` and no `int`.
        is_unsigned: bool,
    },
    /// A string literal: the bytes that it stands for.
    Text(u32, Text),
    /// A punctuator.
    Punctuator(u32, Punctuator),
}
