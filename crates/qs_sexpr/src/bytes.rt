// Classes of bytes, and how far they go.
ghost use Rattle.std.specs.Prelude.{◌≡◌, ◌≤◌, length};
ghost use Rattle.std.specs.List.{prefix_len};
ghost use Rattle.qs_sexpr.specs.Bytes.{is_atom_byte, is_space, is_symbol_byte};
ghost use Rattle.qs_sexpr.specs.Bytes.{starts_number, starts_symbol};

use qs_base::{is_digit, is_letter};

/// Whether the byte is a blank, a tab, 0x0D or 0x0A.
pub fn is_space(byte: u8) -> bool
    ensures { result ≡ is_space byte }
{
    byte == b' ' || byte == b'\t' || byte == b'\r' || byte == b'\n'
}

/// Whether a number may begin with the byte: a digit or `-`.
pub fn starts_number(byte: u8) -> bool
    ensures { result ≡ starts_number byte }
{
    is_digit(byte) || byte == b'-'
}

/// Whether a symbol may begin with the byte: a letter, `_` or `$`.
pub fn starts_symbol(byte: u8) -> bool
    ensures { result ≡ starts_symbol byte }
{
    is_letter(byte) || byte == b'$'
}

fn is_symbol_byte(byte: u8) -> bool
    ensures { result ≡ is_symbol_byte byte }
{
    starts_symbol(byte) || is_digit(byte) || byte == b'#'
}

/// Whether the byte may stand in an atom: a letter, `_`, `$`, a digit, `#` or `-`.
pub fn is_atom_byte(byte: u8) -> bool
    ensures { result ≡ is_atom_byte byte }
{
    is_symbol_byte(byte) || byte == b'-'
}

/// How many bytes of atoms stand first.
pub fn atom_length(rest: &[u8]) -> usize
    ensures run { result ≡ prefix_len is_atom_byte rest.now }
    ensures within { result ≤ length rest.now }
{
    rest.iter().take_while(|byte| is_atom_byte(**byte)).count()
}

/// How many bytes of symbols stand first.
pub fn symbol_length(rest: &[u8]) -> usize
    ensures run { result ≡ prefix_len is_symbol_byte rest.now }
    ensures within { result ≤ length rest.now }
{
    rest.iter()
        .take_while(|byte| is_symbol_byte(**byte))
        .count()
}
