// Classes of bytes.
ghost use Rattle.std.specs.Prelude.{◌≡◌};
ghost use Rattle.std.specs.List.{prefix_len};
ghost use Rattle.qs_base.specs.Bytes.{is_between, is_digit, is_in_line, is_letter, is_word_byte};

/// Whether the byte is one from `low` to `high`.
pub fn is_between(low: u8, high: u8, byte: u8) -> bool
    ensures { result ≡ is_between low high byte }
{
    low <= byte && byte <= high
}

/// Whether the byte is a digit.
pub fn is_digit(byte: u8) -> bool
    ensures { result ≡ is_digit byte }
{
    is_between(b'0', b'9', byte)
}

/// Whether the byte is a letter or `_`.
pub fn is_letter(byte: u8) -> bool
    ensures { result ≡ is_letter byte }
{
    is_between(b'a', b'z', byte) || is_between(b'A', b'Z', byte) || byte == b'_'
}

/// Whether the byte may stand in a name or keyword.
pub fn is_word_byte(byte: u8) -> bool
    ensures { result ≡ is_word_byte byte }
{
    is_letter(byte) || is_digit(byte)
}

/// How many bytes the line still has.
pub fn line_length(rest: &[u8]) -> usize
    ensures { result ≡ prefix_len is_in_line rest.now }
{
    rest.iter().take_while(|byte| **byte != b'\n').count()
}
