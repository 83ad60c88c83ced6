// Variables as they are written.
ghost use Rattle.std.specs.Prelude.{◌≡◌, map, IfOk};
ghost use Rattle.std.specs.List.{slice_get};
ghost use Rattle.qs_core.specs.UnitTrees.{unit_tree};
ghost use Rattle.qs_prooftext_meaning.specs.Contexts.{word_view, GivesWords};
ghost use Rattle.qs_prooftext_meaning.specs.Writing as spec;
ghost use Rattle.qs_prooftext_meaning.specs.Writing.{word_for, words_in};

use qs_assert::{Var, VarKind};
use qs_base::{FnId, Name, NoMemory};
use qs_core::CoreUnit;
use qs_prooftext_meaning::{Word, words_of};
use std::alloc::Global;

/// The words of the variables of a function.
pub fn words_in(alloc: Global, unit: &CoreUnit, f: FnId) -> Result<Vec<Word>, NoMemory>
    ensures { GivesWords (words_in (slice_get (unit_tree unit.now).functions f.0)) result }
{
    match unit.functions.get(f.0 as usize) {
        Some(function) => words_of(alloc, function),
        None => Ok(Vec::new(alloc)),
    }
}

/// The word for a variable; what has none is written as nothing.
fn word_for(words: &[Word], x: Var) -> &[u8]
    ensures { result.now ≡ word_for x (map word_view words.now) }
{
    for word in words {
        if word.variable.same(x) {
            return word.text.as_slice();
        }
    }
    &[]
}

fn old_text(alloc: Global, word: &[u8]) -> Result<Name, NoMemory>
    ensures { IfOk result (λ text. text ≡ spec.old_text word.now) }
{
    let mut text = Vec::from_slice(alloc, b"(old ")?;
    text.extend_from_slice(word)?;
    text.push(b')')?;
    Name::new(alloc, &text)
}

/// A variable of a function as a file writes it in the entry of this. Nothing stops it but want of
/// memory.
pub fn variable_text(alloc: Global, unit: &CoreUnit, f: FnId, x: &Var) -> Result<Name, NoMemory>
    ensures { IfOk result (λ text. text ≡ spec.variable_text (unit_tree unit.now) f.0 x.now) }
{
    let words = words_in(alloc, unit, f)?;
    match x.kind {
        VarKind::Plain(_) => Name::new(alloc, word_for(&words, *x)),
        VarKind::Temporary(_) => Name::new(alloc, word_for(&words, *x)),
        VarKind::Old(number) => {
            let plain = Var {
                kind: VarKind::Plain(number),
                number: x.number,
            };
            old_text(alloc, word_for(&words, plain))
        }
        VarKind::Returned => Name::new(alloc, b"(result)"),
    }
}
