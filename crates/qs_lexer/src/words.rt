// Keywords and names.
ghost use Rattle.std.specs.Prelude.{◌≡◌};
ghost use Rattle.qs_lexer.specs.Words.{word_of};

use crate::fault::FaultKind;
use qs_syntax_vocabulary::{Keyword, TokenKind};

/// What a word is: a keyword or a name.
pub fn word_of(word: &[u8]) -> Result<TokenKind, FaultKind>
    ensures { result ≡ word_of word.now }
{
    match Keyword::of(word) {
        Some(keyword) => Ok(TokenKind::Keyword(keyword)),
        None => Ok(TokenKind::Name),
    }
}
