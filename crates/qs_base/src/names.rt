// Which bytes are a name of the language.
ghost use Rattle.std.specs.Prelude.{◌≡◌};
ghost use Rattle.std.specs.List.{list_all};
ghost use Rattle.qs_base.specs.Bytes.{is_word_byte};
ghost use Rattle.qs_base.specs.Keywords.{is_keyword};
ghost use Rattle.qs_base.specs.Names.{is_word, is_name};

use crate::bytes::{is_letter, is_word_byte};
use crate::keyword::Keyword;

fn are_word_bytes(bytes: &[u8]) -> bool
    ensures { result ≡ list_all is_word_byte bytes.now }
{
    bytes.iter().all(|byte| is_word_byte(*byte))
}

fn is_word(bytes: &[u8]) -> bool
    ensures { result ≡ is_word bytes.now }
{
    match bytes {
        [] => false,
        [first, others @ ..] => is_letter(*first) && are_word_bytes(others),
    }
}

#[tactic(auto, unfolding(crate::specs::Keywords::is_keyword))]
fn is_keyword(word: &[u8]) -> bool
    ensures { result ≡ is_keyword word.now }
{
    Keyword::of(word).is_some()
}

/// Whether these bytes are a name: a letter or `_`, then letters, digits and `_` (C11 6.4.2.1), and
/// none of the 44 keywords (C11 6.4.1).
#[tactic(auto, unfolding(crate::specs::Names::is_name))]
pub fn is_name(bytes: &[u8]) -> bool
    ensures { result ≡ is_name bytes.now }
{
    is_word(bytes) && !is_keyword(bytes)
}
