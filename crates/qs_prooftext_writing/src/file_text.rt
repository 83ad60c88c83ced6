// Proofs as the text of a file.
ghost use Rattle.std.specs.Prelude.{◌∷◌, []};
ghost use Rattle.qs_core.specs.UnitTrees.{unit_tree};
ghost use Rattle.qs_sexpr.specs.Writing.{Forms};
ghost use Rattle.qs_triples.specs.TreeOf.{proofs_tree};
ghost use Rattle.qs_prooftext_writing.specs.Tokens.{Writes, entry_part_marks, headed_entry_part};
ghost use Rattle.qs_prooftext_writing.specs.Tokens.{define_marks, entry_marks, AreTokensOf, Lays, LaysList};
ghost use Rattle.qs_prooftext_writing.specs.Tokens.{defines_forms, entries_forms};
ghost use Rattle.qs_prooftext_meaning.specs.Laws.{LaysOut, ReadsBack};

use crate::certificate_tokens::put_certificate;
use crate::derivation_tokens::put_derivation;
use crate::machine_numbers::short_numbers;
use crate::naming::{WordTable, function_word};
use crate::putting::{begin, put, put_assertion};
use crate::writing::words_in;
use qs_assert::{Assertion, Define};
use qs_base::NoMemory;
use qs_core::CoreUnit;
use qs_entail::Certificate;
use qs_sexpr::Token;
use qs_triples::{Derivation, FunctionProof, Proofs};
use std::alloc::Global;

// ---- tokens

/// What an entry has in a list of its own.
#[derive(Clone, Copy)]
pub enum EntryPart<'a> {
    /// The precondition or the postcondition.
    Bound(&'a Assertion),
    /// Why the precondition is enough for the body.
    Reason(&'a Certificate),
    /// The derivation of the body.
    Body(&'a Derivation),
}

fn put_entry_part<'a>(
    alloc: Global,
    out: &mut Vec<Token<'a>>,
    table: WordTable<'a>,
    part: EntryPart<'a>,
) -> Result<(), NoMemory>
    ensures { Writes out.old (entry_part_marks table.entry part.entry) out.new result }
{
    match part {
        EntryPart::Bound(bound) => put_assertion(alloc, out, table, bound),
        EntryPart::Reason(reason) => put_certificate(alloc, out, table, reason),
        EntryPart::Body(body) => put_derivation(alloc, out, table, body),
    }
}

/// Puts a list with this head and a part of an entry.
fn put_part<'a>(
    alloc: Global,
    out: &mut Vec<Token<'a>>,
    table: WordTable<'a>,
    head: &'a [u8],
    part: EntryPart<'a>,
) -> Result<(), NoMemory>
    ensures { Writes out.old (headed_entry_part table.entry head.now part.entry) out.new result }
{
    begin(out, head)?;
    put_entry_part(alloc, out, table, part)?;
    put(out, Token::Close)
}

/// Puts a definition.
fn put_define<'a>(
    alloc: Global,
    out: &mut Vec<Token<'a>>,
    table: WordTable<'a>,
    define: &'a Define,
) -> Result<(), NoMemory>
    ensures { Writes out.old (define_marks table.entry define.now) out.new result }
{
    begin(out, b"define")?;
    put(out, Token::Symbol(define.name.bytes()))?;
    put_assertion(alloc, out, table, &define.body)?;
    put(out, Token::Close)
}

/// Puts an entry.
fn put_entry<'a>(
    alloc: Global,
    out: &mut Vec<Token<'a>>,
    table: WordTable<'a>,
    entry: &'a FunctionProof,
) -> Result<(), NoMemory>
    ensures { Writes out.old (entry_marks table.entry entry.now) out.new result }
{
    begin(out, b"function")?;
    put(out, Token::Symbol(function_word(table, entry.function)))?;
    put_part(alloc, out, table, b"pre", EntryPart::Bound(&entry.spec.pre))?;
    put_part(
        alloc,
        out,
        table,
        b"post",
        EntryPart::Bound(&entry.spec.post),
    )?;
    put_part(alloc, out, table, b"entry", EntryPart::Reason(&entry.entry))?;
    put_part(alloc, out, table, b"body", EntryPart::Body(&entry.body))?;
    put(out, Token::Close)
}

// ---- texts

/// Lays lists and atoms out behind the text.
fn lay(alloc: Global, text: &mut Vec<u8>, tokens: &[Token<'_>]) -> Result<(), NoMemory>
    ensures { (forms : Forms) → AreTokensOf tokens.now forms → Lays text.old forms text.new result }
{
    let more = qs_sexpr::write(alloc, tokens)?;
    text.extend_from_slice(&more)?;
    Ok(())
}

fn write_define(
    alloc: Global,
    unit: &CoreUnit,
    define: &Define,
    text: &mut Vec<u8>,
) -> Result<(), NoMemory>
    ensures { LaysList text.old (defines_forms unit.now (define.now ∷ [])) text.new result }
{
    let table = WordTable {
        functions: &unit.functions,
        variables: &[],
    };
    let mut tokens = Vec::new(alloc);
    put_define(alloc, &mut tokens, table, define)?;
    lay(alloc, text, &tokens)
}

fn write_entry(
    alloc: Global,
    unit: &CoreUnit,
    entry: &FunctionProof,
    text: &mut Vec<u8>,
) -> Result<(), NoMemory>
    ensures { LaysList text.old (entries_forms unit.now (entry.now ∷ [])) text.new result }
{
    let words = words_in(alloc, unit, entry.function)?;
    let table = WordTable {
        functions: &unit.functions,
        variables: &words,
    };
    let mut tokens = Vec::new(alloc);
    put_entry(alloc, &mut tokens, table, entry)?;
    lay(alloc, text, &tokens)
}

fn write_defines(
    alloc: Global,
    unit: &CoreUnit,
    defines: &[Define],
    text: &mut Vec<u8>,
) -> Result<(), NoMemory>
    ensures { LaysList text.old (defines_forms unit.now defines.now) text.new result }
{
    for define in defines {
        write_define(alloc, unit, define, text)?;
    }
    Ok(())
}

fn write_entries(
    alloc: Global,
    unit: &CoreUnit,
    entries: &[FunctionProof],
    text: &mut Vec<u8>,
) -> Result<(), NoMemory>
    ensures { LaysList text.old (entries_forms unit.now entries.now) text.new result }
{
    for entry in entries {
        write_entry(alloc, unit, entry, text)?;
    }
    Ok(())
}

/// The text of proofs of a unit, laid out for people: a list for each definition, and then one for
/// each entry. It reads back to the proofs, where these can be written in the unit. What has no
/// word is written as nothing: a function that the unit doesn't have, and a variable that the
/// function doesn't have. Nothing stops it but want of memory.
pub fn write(alloc: Global, proofs: &Proofs, unit: &CoreUnit) -> Result<Vec<u8>, NoMemory>
    ensures laid { LaysOut (unit_tree unit.now) (proofs_tree proofs.now) result }
    ensures reads { ReadsBack (unit_tree unit.now) (proofs_tree proofs.now) result }
{
    short_numbers(unit);
    let mut text = Vec::new(alloc);
    write_defines(alloc, unit, &proofs.defines, &mut text)?;
    write_entries(alloc, unit, &proofs.functions, &mut text)?;
    Ok(text)
}
