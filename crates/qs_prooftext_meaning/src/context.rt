// What the words of an entry or a definition mean.
ghost use Rattle.std.specs.Prelude.{◌≡◌, map, IfOk};
ghost use Rattle.qs_prooftext_meaning.specs.Contexts.{function_rows, has_name_in, is_open_word, word_view};
ghost use Rattle.qs_prooftext_meaning.specs.Contexts.{FindsFunction};
ghost use Rattle.qs_prooftext_meaning.specs.Settings.{look_up};

use crate::definitions::Definitions;
use qs_assert::Var;
use qs_base::{FnId, Name, NoMemory};
use qs_core::CoreFunction;

/// A word that stands for a variable.
#[derive(Drop)]
pub struct Word {
    /// its bytes
    pub text: Vec<u8>,
    /// the variable
    pub variable: Var,
}

/// The names that stand for definitions.
#[derive(Clone, Copy)]
pub struct Names<'a> {
    /// whether each function of the unit is open; an open function is a definition of its own name
    pub is_open: &'a [bool],
    /// the definitions of the file so far
    pub definitions: &'a Definitions,
}

/// A text, and what its words mean.
#[derive(Clone, Copy)]
pub struct Context<'a> {
    /// the text
    pub text: &'a [u8],
    /// the functions of the unit
    pub functions: &'a [CoreFunction],
    /// the variables of the function whose entry it is
    pub words: &'a [Word],
    /// its result, where that is an integer
    pub result: Option<Var>,
    /// the names that have a meaning in an entry
    pub names: Option<Names<'a>>,
}

/// The function with this name. A number that can't be kept is want of memory.
pub fn find_function(functions: &[CoreFunction], word: &[u8]) -> Result<Option<FnId>, NoMemory>
    ensures { FindsFunction functions.now word.now result }
{
    let mut index: usize = 0;
    for function in functions {
        if function.name.bytes() == word {
            return Ok(Some(FnId::at(index)?));
        }
        index += 1;
    }
    Ok(None)
}

/// The variable that this word stands for.
pub fn find_variable(words: &[Word], word: &[u8]) -> Option<Var>
    ensures { result ≡ look_up word.now (map word_view words.now) }
{
    for row in words {
        if row.text.as_slice() == word {
            return Some(row.variable);
        }
    }
    None
}

fn is_open(names: Names<'_>, functions: &[CoreFunction], word: &[u8]) -> bool
    ensures { result ≡ is_open_word names.entry.is_open.now (function_rows functions.now) word.now }
{
    let mut index: usize = 0;
    for function in functions {
        if function.name.bytes() == word && names.is_open.get(index).copied().unwrap_or(false) {
            return true;
        }
        index += 1;
    }
    false
}

/// Whether a name has a definition.
pub fn is_defined(names: Option<Names<'_>>, functions: &[CoreFunction], word: &[u8]) -> bool
    ensures { result ≡ has_name_in (function_rows functions.now) names.entry word.now }
{
    match names {
        None => false,
        Some(known) => is_open(known, functions, word) || known.definitions.has(word),
    }
}
