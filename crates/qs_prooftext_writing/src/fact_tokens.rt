// Combinations and facts as tokens.
ghost use Rattle.std.specs.Prelude.{map};
ghost use Rattle.qs_entail.specs.View.{item_view, items_view};
ghost use Rattle.qs_sexpr.specs.Marks.{marks};
ghost use Rattle.qs_prooftext_writing.specs.Putting.{fact_begins, list_marks, words_in_table, apart_begins};
ghost use Rattle.qs_prooftext_meaning.specs.Writing.{item_form};
ghost use Rattle.qs_prooftext_writing.specs.Tokens.{Writes, combination_marks, term_begins, items_begin};
ghost use Rattle.qs_prooftext_writing.specs.Tokens.{BeginsBoth, fact_marks};
ghost use Rattle.qs_entail.specs.Certificates.{range};

use crate::naming::{WordTable, function_word};
use crate::putting::{begin, put, put_named, put_term, put_variable};
use qs_assert::{Term, Var};
use qs_base::NoMemory;
use qs_entail::{Fact, Item};
use qs_sexpr::Token;
use std::alloc::Global;

fn put_item<'a>(out: &mut Vec<Token<'a>>, item: Item) -> Result<(), NoMemory>
    ensures { Writes out.old (marks (item_form (item_view item))) out.new result }
{
    put(out, Token::Open)?;
    match item {
        Item::Once(times, first) => {
            put(out, Token::Natural(times))?;
            put(out, Token::Number(first))?;
        }
        Item::Twice(times, first, second) => {
            put(out, Token::Natural(times))?;
            put(out, Token::Number(first))?;
            put(out, Token::Number(second))?;
        }
    }
    put(out, Token::Close)
}

fn put_items<'a>(out: &mut Vec<Token<'a>>, items: &[Item]) -> Result<(), NoMemory>
    ensures { Writes out.old (list_marks (map item_form (items_view items.now))) out.new result }
{
    for item in items {
        put_item(out, *item)?;
    }
    Ok(())
}

/// Puts a combination.
pub fn put_combination<'a>(out: &mut Vec<Token<'a>>, items: &[Item]) -> Result<(), NoMemory>
    ensures { Writes out.old (combination_marks items.now) out.new result }
{
    put(out, Token::Open)?;
    put_items(out, items)?;
    put(out, Token::Close)
}

// Puts the beginning of a list with this head and a term.
fn begin_with<'a>(
    alloc: Global,
    out: &mut Vec<Token<'a>>,
    table: WordTable<'a>,
    head: &'a [u8],
    t: &'a Term,
) -> Result<(), NoMemory>
    ensures { Writes out.old (term_begins table.entry head.now t.now) out.new result }
{
    begin(out, head)?;
    put_term(alloc, out, table, t)
}

// Puts the beginning of a list with this head, a term and a combination.
fn begin_with_items<'a>(
    alloc: Global,
    out: &mut Vec<Token<'a>>,
    table: WordTable<'a>,
    head: &'a [u8],
    t: &'a Term,
    items: &[Item],
) -> Result<(), NoMemory>
    ensures { Writes out.old (items_begin table.entry head.now t.now items.now) out.new result }
{
    begin_with(alloc, out, table, head, t)?;
    put_combination(out, items)
}

// Puts the beginning of a list with this head, a term and two combinations.
fn begin_with_both<'a>(
    alloc: Global,
    out: &mut Vec<Token<'a>>,
    table: WordTable<'a>,
    head: &'a [u8],
    t: &'a Term,
    first: &[Item],
    second: &[Item],
) -> Result<(), NoMemory>
    ensures { BeginsBoth out.old table.entry head.now t.now first.now second.now out.new result }
{
    begin_with_items(alloc, out, table, head, t, first)?;
    put_combination(out, second)
}

// Puts the beginning of a fact that a variable is in the range of its type.
fn begin_range<'a>(out: &mut Vec<Token<'a>>, table: WordTable<'a>, x: Var) -> Result<(), NoMemory>
    ensures { Writes out.old (fact_begins (words_in_table table.entry) (range x)) out.new result }
{
    begin(out, b"range")?;
    put_variable(out, table, x)
}

// Puts the beginning of a fact that two terms differ.
fn begin_apart<'a>(out: &mut Vec<Token<'a>>, number: i64, items: &[Item]) -> Result<(), NoMemory>
    ensures { Writes out.old (apart_begins number (items_view items.now)) out.new result }
{
    begin(out, b"apart")?;
    put(out, Token::Number(number))?;
    put_combination(out, items)
}

/// Puts the beginning of a fact, up to the certificate behind it.
pub fn begin_fact<'a>(
    alloc: Global,
    out: &mut Vec<Token<'a>>,
    table: WordTable<'a>,
    fact: &'a Fact,
) -> Result<(), NoMemory>
    ensures { Writes out.old (fact_marks table.entry fact.now) out.new result }
{
    match fact {
        Fact::Range(x) => begin_range(out, table, *x),
        Fact::CostRange(f) => {
            begin(out, b"range")?;
            put_named(out, b"cost", function_word(table, *f))
        }
        Fact::Apart(number, items) => begin_apart(out, *number, items),
        Fact::NumIs(t, items) => begin_with_items(alloc, out, table, b"num", t, items),
        Fact::NumBounds(t) => begin_with(alloc, out, table, b"pos", t),
        Fact::WrapUnsignedIs(t, first, second) => {
            begin_with_both(alloc, out, table, b"wrapu", t, first, second)
        }
        Fact::WrapSignedIs(t, first, second) => {
            begin_with_both(alloc, out, table, b"wraps", t, first, second)
        }
        Fact::WrapUnsignedBounds(t) => begin_with(alloc, out, table, b"boundu", t),
        Fact::WrapSignedBounds(t) => begin_with(alloc, out, table, b"bounds", t),
        Fact::QuotientBounds(t, divisor) => {
            begin_with(alloc, out, table, b"div", t)?;
            put(out, Token::Natural(*divisor))
        }
        Fact::BitsBound(t) => begin_with(alloc, out, table, b"bits", t),
        Fact::BitsHalf(t, items) => begin_with_items(alloc, out, table, b"half", t, items),
        Fact::BitsRise(t, u, items) => {
            begin_with(alloc, out, table, b"mono", t)?;
            put_term(alloc, out, table, u)?;
            put_combination(out, items)
        }
    }
}
