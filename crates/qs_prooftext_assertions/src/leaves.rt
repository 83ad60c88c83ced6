// Numbers and names.
ghost use Rattle.std.specs.Prelude.{◌≡◌};
ghost use Rattle.qs_prooftext_meaning.specs.Kinds.{a_divisor, a_function, a_name, a_natural};
ghost use Rattle.qs_prooftext_meaning.specs.Kinds.{an_index, an_old_variable};
ghost use Rattle.qs_prooftext_meaning.specs.Contexts.{old_by_word, setting_of};
ghost use Rattle.qs_prooftext_meaning.specs.Settings.{old_variable};
ghost use Rattle.qs_prooftext_assertions.specs.Readers.{ReadsPart, ReadsPartAnywhere};

use crate::parts::Part;
use qs_assert::{Var, VarKind};
use qs_base::{FnId, Name};
use qs_prooftext_meaning::{Context, TextFault, find_function, find_variable};
use std::alloc::Global;

/// The number of a condition, a polynomial or a member.
#[tactic(auto, using(crate::proofs::LeafLaws::index_laws))]
pub fn index(part: Part<'_>) -> Result<i64, TextFault>
    ensures { ReadsPartAnywhere part.entry an_index (λ n. n) result }
{
    match part {
        Part::Number(_, number) => Ok(number),
        Part::Symbol(at, _) => Err(TextFault::UnknownForm(at)),
        Part::List(at, _, _) => Err(TextFault::UnknownForm(at)),
    }
}

/// A number of at least 0.
#[tactic(auto, using(crate::proofs::LeafLaws::natural_laws))]
pub fn natural(part: Part<'_>) -> Result<u64, TextFault>
    ensures { ReadsPartAnywhere part.entry a_natural (λ n. n) result }
{
    match part {
        Part::Number(at, number) => {
            if number < 0 {
                Err(TextFault::UnknownForm(at))
            } else {
                Ok(number as u64)
            }
        }
        Part::Symbol(at, _) => Err(TextFault::UnknownForm(at)),
        Part::List(at, _, _) => Err(TextFault::UnknownForm(at)),
    }
}

/// Any name.
#[tactic(auto, using(crate::proofs::LeafLaws::name_laws))]
pub fn name(alloc: Global, part: Part<'_>) -> Result<Name, TextFault>
    ensures { ReadsPartAnywhere part.entry a_name (λ n. n) result }
{
    match part {
        Part::Number(at, _) => Err(TextFault::UnknownForm(at)),
        Part::Symbol(_, word) => Ok(Name::new(alloc, word)?),
        Part::List(at, _, _) => Err(TextFault::UnknownForm(at)),
    }
}

/// A number of at least 1.
#[tactic(auto, using(crate::proofs::LeafLaws::divisor_laws))]
pub fn divisor(part: Part<'_>) -> Result<u64, TextFault>
    ensures { ReadsPartAnywhere part.entry a_divisor (λ n. n) result }
{
    match part {
        Part::Number(at, number) => {
            if number < 1 {
                Err(TextFault::UnknownForm(at))
            } else {
                Ok(number as u64)
            }
        }
        Part::Symbol(at, _) => Err(TextFault::UnknownForm(at)),
        Part::List(at, _, _) => Err(TextFault::UnknownForm(at)),
    }
}

/// A function, in the list at this place.
#[tactic(auto, using(crate::proofs::LeafLaws::function_laws))]
pub fn function(context: Context<'_>, whole: u32, part: Part<'_>) -> Result<FnId, TextFault>
    ensures { ReadsPart context.entry part.entry (a_function whole) (λ f. f.0) result }
{
    match part {
        Part::Number(at, _) => Err(TextFault::UnknownForm(at)),
        Part::Symbol(_, word) => match find_function(context.functions, word)? {
            Some(function) => Ok(function),
            None => Err(TextFault::NoSuchFunction(whole)),
        },
        Part::List(at, _, _) => Err(TextFault::UnknownForm(at)),
    }
}

/// The value of a plain variable at the entry.
pub fn old_of(variable: Var) -> Option<Var>
    ensures { result ≡ old_variable variable }
{
    match variable.kind {
        VarKind::Plain(number) => Some(Var {
            kind: VarKind::Old(number),
            number: variable.number,
        }),
        VarKind::Temporary(_) => None,
        VarKind::Old(_) => None,
        VarKind::Returned => None,
    }
}

/// The value at the entry of the variable for which a word stands.
pub fn find_old(context: Context<'_>, word: &[u8]) -> Option<Var>
    ensures { result ≡ old_by_word (setting_of context.entry).variables word.now }
{
    old_of(find_variable(context.words, word)?)
}

/// A variable whose value at the entry is meant, in the list at this place.
#[tactic(auto, using(crate::proofs::LeafLaws::old_variable_laws))]
pub fn old_variable(context: Context<'_>, whole: u32, part: Part<'_>) -> Result<Var, TextFault>
    ensures { ReadsPart context.entry part.entry (an_old_variable whole) (λ x. x) result }
{
    match part {
        Part::Number(at, _) => Err(TextFault::UnknownForm(at)),
        Part::Symbol(_, word) => match find_old(context, word) {
            Some(variable) => Ok(variable),
            None => Err(TextFault::UnknownForm(whole)),
        },
        Part::List(at, _, _) => Err(TextFault::UnknownForm(at)),
    }
}
