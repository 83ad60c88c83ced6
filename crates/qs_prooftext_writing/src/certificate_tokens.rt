// Certificates as tokens.
ghost use Rattle.std.specs.Prelude.{◌++◌, ◌∷◌, []};
ghost use Rattle.qs_sexpr.specs.Marks.{closes};
ghost use Rattle.qs_prooftext_writing.specs.Tokens.{Writes, cert_marks, around, with_fact, certs_marks};
ghost use Rattle.qs_prooftext_writing.specs.Tokens.{headed_certs, headed_combination};
ghost use Rattle.qs_entail.specs.Certificates.{pick, assume, by_definition};

use crate::fact_tokens::{begin_fact, put_combination};
use crate::naming::WordTable;
use crate::putting::{begin, put, put_alone, put_assertion, put_condition};
use qs_base::{Name, NoMemory};
use qs_entail::{Certificate, Fact, Item};
use qs_sexpr::Token;
use std::alloc::Global;

/// Puts a list with this head and a combination.
fn put_items<'a>(out: &mut Vec<Token<'a>>, head: &'a [u8], items: &[Item]) -> Result<(), NoMemory>
    ensures { Writes out.old (headed_combination head.now items.now) out.new result }
{
    begin(out, head)?;
    put_combination(out, items)?;
    put(out, Token::Close)
}

// One behind the other.
#[cycle(put_certificate)]
fn put_certificates<'a>(
    alloc: Global,
    out: &mut Vec<Token<'a>>,
    table: WordTable<'a>,
    parts: &'a [Certificate],
) -> Result<(), NoMemory>
    ensures { Writes out.old (certs_marks table.entry parts.now) out.new result }
{
    for part in parts {
        put_certificate(alloc, out, table, part)?;
    }
    Ok(())
}

/// Puts a list with this head and certificates.
#[cycle(put_certificate)]
fn put_headed<'a>(
    alloc: Global,
    out: &mut Vec<Token<'a>>,
    table: WordTable<'a>,
    head: &'a [u8],
    parts: &'a [Certificate],
) -> Result<(), NoMemory>
    ensures { Writes out.old (headed_certs table.entry head.now parts.now) out.new result }
{
    begin(out, head)?;
    put_certificates(alloc, out, table, parts)?;
    put(out, Token::Close)
}

// The last part of a list.
#[cycle(put_certificate)]
fn put_last<'a>(
    alloc: Global,
    out: &mut Vec<Token<'a>>,
    table: WordTable<'a>,
    part: &'a Certificate,
) -> Result<(), NoMemory>
    ensures { Writes out.old (cert_marks table.entry part.now ++ closes ∷ []) out.new result }
{
    put_certificate(alloc, out, table, part)?;
    put(out, Token::Close)
}

#[cycle(put_certificate)]
fn put_pick<'a>(
    alloc: Global,
    out: &mut Vec<Token<'a>>,
    table: WordTable<'a>,
    number: i64,
    part: &'a Certificate,
) -> Result<(), NoMemory>
    ensures { Writes out.old (around table.entry (pick number) part.now) out.new result }
{
    begin(out, b"pick")?;
    put(out, Token::Number(number))?;
    put_last(alloc, out, table, part)
}

#[cycle(put_certificate)]
fn put_assume<'a>(
    alloc: Global,
    out: &mut Vec<Token<'a>>,
    table: WordTable<'a>,
    part: &'a Certificate,
) -> Result<(), NoMemory>
    ensures { Writes out.old (around table.entry assume part.now) out.new result }
{
    begin(out, b"assume")?;
    put_last(alloc, out, table, part)
}

#[cycle(put_certificate)]
fn put_unfold<'a>(
    alloc: Global,
    out: &mut Vec<Token<'a>>,
    table: WordTable<'a>,
    name: &'a Name,
    part: &'a Certificate,
) -> Result<(), NoMemory>
    ensures { Writes out.old (around table.entry (by_definition name.now) part.now) out.new result }
{
    begin(out, b"unfold")?;
    put(out, Token::Symbol(name.bytes()))?;
    put_last(alloc, out, table, part)
}

#[cycle(put_certificate)]
fn put_fact<'a>(
    alloc: Global,
    out: &mut Vec<Token<'a>>,
    table: WordTable<'a>,
    fact: &'a Fact,
    part: &'a Certificate,
) -> Result<(), NoMemory>
    ensures { Writes out.old (around table.entry (with_fact fact.now) part.now) out.new result }
{
    begin_fact(alloc, out, table, fact)?;
    put_last(alloc, out, table, part)
}

/// Puts a certificate.
#[cycle(put_certificate)]
pub fn put_certificate<'a>(
    alloc: Global,
    out: &mut Vec<Token<'a>>,
    table: WordTable<'a>,
    certificate: &'a Certificate,
) -> Result<(), NoMemory>
    ensures { Writes out.old (cert_marks table.entry certificate.now) out.new result }
{
    match certificate {
        Certificate::Same => put_alone(out, b"same"),
        Certificate::Via(between, first, second) => {
            begin(out, b"via")?;
            put_assertion(alloc, out, table, between)?;
            put_certificate(alloc, out, table, first)?;
            put_last(alloc, out, table, second)
        }
        Certificate::Pick(number, part) => put_pick(alloc, out, table, *number, part),
        Certificate::All(parts) => put_headed(alloc, out, table, b"all", parts),
        Certificate::Parts(parts) => put_headed(alloc, out, table, b"parts", parts),
        Certificate::Assume(part) => put_assume(alloc, out, table, part),
        Certificate::DropGuard(first, second) => {
            begin(out, b"drop")?;
            put_certificate(alloc, out, table, first)?;
            put_last(alloc, out, table, second)
        }
        Certificate::Split(condition, first, second) => {
            begin(out, b"split")?;
            put_condition(alloc, out, table, condition)?;
            put_certificate(alloc, out, table, first)?;
            put_last(alloc, out, table, second)
        }
        Certificate::Contradict(items) => put_items(out, b"absurd", items),
        Certificate::Arithmetic(items) => put_items(out, b"arith", items),
        Certificate::ByDefinition(name, part) => put_unfold(alloc, out, table, name, part),
        Certificate::Fact(fact, part) => put_fact(alloc, out, table, fact, part),
    }
}
