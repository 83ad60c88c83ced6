// Derivations as tokens.
ghost use Rattle.std.specs.Prelude.{◌++◌, ◌∷◌, []};
ghost use Rattle.qs_sexpr.specs.Marks.{closes};
ghost use Rattle.qs_prooftext_writing.specs.Tokens.{Writes, derivation_marks, call_marks};
ghost use Rattle.qs_prooftext_writing.specs.Tokens.{derivations_marks};

use crate::certificate_tokens::put_certificate;
use crate::naming::WordTable;
use crate::putting::{begin, put, put_alone, put_assertion};
use qs_assert::Assertion;
use qs_base::NoMemory;
use qs_entail::Certificate;
use qs_sexpr::Token;
use qs_triples::Derivation;
use std::alloc::Global;

// One behind the other.
#[cycle(put_derivation)]
fn put_derivations<'a>(
    alloc: Global,
    out: &mut Vec<Token<'a>>,
    table: WordTable<'a>,
    parts: &'a [Derivation],
) -> Result<(), NoMemory>
    ensures { Writes out.old (derivations_marks table.entry parts.now) out.new result }
{
    for part in parts {
        put_derivation(alloc, out, table, part)?;
    }
    Ok(())
}

// The last part of a list.
#[cycle(put_derivation)]
fn put_last<'a>(
    alloc: Global,
    out: &mut Vec<Token<'a>>,
    table: WordTable<'a>,
    part: &'a Derivation,
) -> Result<(), NoMemory>
    ensures { Writes out.old (derivation_marks table.entry part.now ++ closes ∷ []) out.new result }
{
    put_derivation(alloc, out, table, part)?;
    put(out, Token::Close)
}

fn put_call<'a>(
    alloc: Global,
    out: &mut Vec<Token<'a>>,
    table: WordTable<'a>,
    frame: &'a Assertion,
    certificate: &'a Certificate,
) -> Result<(), NoMemory>
    ensures { Writes out.old (call_marks table.entry frame.now certificate.now) out.new result }
{
    begin(out, b"call")?;
    put_assertion(alloc, out, table, frame)?;
    put_certificate(alloc, out, table, certificate)?;
    put(out, Token::Close)
}

/// Puts a derivation.
#[cycle(put_derivation)]
pub fn put_derivation<'a>(
    alloc: Global,
    out: &mut Vec<Token<'a>>,
    table: WordTable<'a>,
    derivation: &'a Derivation,
) -> Result<(), NoMemory>
    ensures { Writes out.old (derivation_marks table.entry derivation.now) out.new result }
{
    match derivation {
        Derivation::Leaf => put_alone(out, b"leaf"),
        Derivation::Sequence(parts) => {
            begin(out, b"seq")?;
            put_derivations(alloc, out, table, parts)?;
            put(out, Token::Close)
        }
        Derivation::Conditional(first, second) => {
            begin(out, b"if")?;
            put_derivation(alloc, out, table, first)?;
            put_last(alloc, out, table, second)
        }
        Derivation::Loop(invariant, certificate, body, step) => {
            begin(out, b"loop")?;
            put_assertion(alloc, out, table, invariant)?;
            put_certificate(alloc, out, table, certificate)?;
            put_derivation(alloc, out, table, body)?;
            put_last(alloc, out, table, step)
        }
        Derivation::Switch(parts) => {
            begin(out, b"switch")?;
            put_derivations(alloc, out, table, parts)?;
            put(out, Token::Close)
        }
        Derivation::Call(frame, certificate) => put_call(alloc, out, table, frame, certificate),
        Derivation::BalancedCall => put_alone(out, b"bal"),
        Derivation::Consequence(stronger, certificate, part) => {
            begin(out, b"use")?;
            put_assertion(alloc, out, table, stronger)?;
            put_certificate(alloc, out, table, certificate)?;
            put_last(alloc, out, table, part)
        }
    }
}
