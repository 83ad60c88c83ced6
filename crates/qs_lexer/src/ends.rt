// Where a comment or a literal ends.
ghost use Rattle.std.specs.Prelude.{◌≡◌, false};
ghost use Rattle.qs_lexer.specs.Ends.{comment_turn, end_of, quote_turn};

/// How many bytes of these, which stand behind `/*`, are of the comment.
pub fn comment_end(bytes: &[u8]) -> Option<usize>
    ensures { result ≡ end_of comment_turn false bytes.now }
{
    let mut starred = false;
    for (i, byte) in bytes.iter().enumerate() {
        if starred && *byte == b'/' {
            return Some(i + 1);
        }
        starred = *byte == b'*';
    }
    None
}

/// How many bytes of these, which stand behind an opening quote, are of the literal.
pub fn quote_end(quote: u8, bytes: &[u8]) -> Option<usize>
    ensures { result ≡ end_of (quote_turn quote) false bytes.now }
{
    let mut taken = false;
    for (i, byte) in bytes.iter().enumerate() {
        if *byte == b'\n' {
            return None;
        }
        if !taken && *byte == quote && *byte != b'\\' {
            return Some(i + 1);
        }
        taken = !taken && *byte == b'\\';
    }
    None
}
