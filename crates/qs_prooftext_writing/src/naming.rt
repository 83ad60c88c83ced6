// The words of functions and variables.
ghost use Rattle.std.specs.Prelude.{◌≡◌};
ghost use Rattle.qs_prooftext_writing.specs.Putting.{words_in_table};
ghost use Rattle.qs_prooftext_meaning.specs.Writing.{word_for};

use qs_assert::Var;
use qs_base::FnId;
use qs_core::CoreFunction;
use qs_prooftext_meaning::Word;

/// The functions of a unit, and the words of the variables of one of them.
#[derive(Clone, Copy)]
pub struct WordTable<'a> {
    pub functions: &'a [CoreFunction],
    pub variables: &'a [Word],
}

/// The name of a function; nothing where the unit has none of this number.
pub fn function_word<'a>(table: WordTable<'a>, function: FnId) -> &'a [u8]
    ensures { result.now ≡ (words_in_table table.entry).functions function.0 }
{
    match table.functions.get(function.0 as usize) {
        Some(found) => found.name.bytes(),
        None => &[],
    }
}

/// The word of a variable; nothing where it has none.
pub fn variable_word<'a>(table: WordTable<'a>, x: Var) -> &'a [u8]
    ensures { result.now ≡ word_for x (words_in_table table.entry).variables }
{
    for row in table.variables {
        if row.variable.same(x) {
            return row.text.as_slice();
        }
    }
    &[]
}
