// Classes of bytes, and how far they go.
ghost use Rattle.std.specs.Prelude.{◌≡◌};
ghost use Rattle.std.specs.List.{prefix_len};
ghost use Rattle.qs_base.specs.Bytes.{is_word_byte};
ghost use Rattle.qs_lexer.specs.Bytes.{blanks_then_digit, digit_after_blanks, is_blank};
ghost use Rattle.qs_lexer.specs.Bytes.{is_number_byte, is_space, starts, starts_with};

use qs_base::{is_between, is_digit, is_word_byte};

fn is_number_byte(byte: u8) -> bool
    ensures { result ≡ is_number_byte byte }
{
    is_word_byte(byte) || byte == b'.'
}

/// Whether the byte is a blank or a tab.
pub fn is_blank(byte: u8) -> bool
    ensures { result ≡ is_blank byte }
{
    byte == b' ' || byte == b'\t'
}

/// Whether the byte is white space: a blank, one of 0x09 to 0x0C (C11 6.4p3), or 0x0D.
pub fn is_space(byte: u8) -> bool
    ensures { result ≡ is_space byte }
{
    byte == b' ' || is_between(9, 13, byte)
}

/// Whether the first byte is this one; no where there is none.
pub fn starts_with(first: u8, bytes: &[u8]) -> bool
    ensures { result ≡ starts_with first bytes.now }
{
    match bytes {
        [] => false,
        [byte, ..] => *byte == first,
    }
}

fn starts_blank(bytes: &[u8]) -> bool
    ensures { result ≡ starts is_blank bytes.now }
{
    match bytes {
        [] => false,
        [byte, ..] => is_blank(*byte),
    }
}

/// How many letters, digits and `_` stand first, in bytes.
pub fn word_length(rest: &[u8]) -> usize
    ensures { result ≡ prefix_len is_word_byte rest.now }
{
    rest.iter().take_while(|byte| is_word_byte(**byte)).count()
}

/// How many letters, digits, `_` and `.` stand first, in bytes.
pub fn number_length(rest: &[u8]) -> usize
    ensures { result ≡ prefix_len is_number_byte rest.now }
{
    rest.iter()
        .take_while(|byte| is_number_byte(**byte))
        .count()
}

fn digit_after_blanks(bytes: &[u8]) -> bool
    ensures { result ≡ digit_after_blanks bytes.now }
{
    for byte in bytes {
        if !is_blank(*byte) {
            return is_digit(*byte);
        }
    }
    false
}

/// Whether at least one blank or tab stands first, and behind all of them a digit.
pub fn blanks_then_digit(bytes: &[u8]) -> bool
    ensures { result ≡ blanks_then_digit bytes.now }
{
    starts_blank(bytes) && digit_after_blanks(bytes)
}
