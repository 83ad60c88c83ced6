// What a text begins with.
ghost use Rattle.std.specs.Prelude.{◌≡◌, ◌∷◌, ◌+◌, ◌<◌, ◌^◌, length};
ghost use Rattle.qs_sexpr.specs.Pieces.{atom, first_piece};

use crate::bytes::{
    atom_length, is_atom_byte, is_space, starts_number, starts_symbol, symbol_length,
};
use crate::numbers::number_of;
use qs_base::line_length;

/// What a text begins with. The first number is that of its bytes after the first.
#[derive(Clone, Copy)]
pub enum Piece {
    /// A byte of white space, or a comment.
    White(usize),
    /// `(`
    Open,
    /// `)`
    Close,
    /// An atom that is this number.
    Number(usize, i64),
    /// An atom that is a symbol.
    Symbol(usize),
    /// A byte that fits nothing, after so many that do.
    BadByte(usize),
    /// An atom that begins as a number and is none.
    BadNumber,
}

/// The atom `text`, whose first byte is `first`.
fn atom(first: u8, others: &[u8], text: &[u8]) -> Piece
    requires { text.now ≡ first ∷ others.now }
    ensures { result ≡ atom first others.now }
{
    if starts_number(first) {
        return match number_of(text) {
            Some(number) => Piece::Number(others.len(), number),
            None => Piece::BadNumber,
        };
    }
    if !starts_symbol(first) {
        return Piece::BadByte(0);
    }
    let fit = symbol_length(others);
    if fit == others.len() {
        Piece::Symbol(fit)
    } else {
        Piece::BadByte(fit + 1)
    }
}

/// What `text` begins with, whose first byte is `first`.
pub fn first_piece(first: u8, others: &[u8], text: &[u8]) -> Piece
    requires whole { text.now ≡ first ∷ others.now }
    requires small { length others.now + 1 < 2 ^ 31 }
    ensures { result ≡ first_piece first others.now }
{
    if is_space(first) {
        Piece::White(0)
    } else if first == b';' {
        Piece::White(line_length(others))
    } else if first == b'(' {
        Piece::Open
    } else if first == b')' {
        Piece::Close
    } else if is_atom_byte(first) {
        let more = atom_length(others);
        atom(first, &others[..more], &text[..more + 1])
    } else {
        Piece::BadByte(0)
    }
}
