// The words of the variables of a function.
ghost use Rattle.std.specs.Prelude.{◌≡◌, ◌++◌, decimal, IfOk, OnOk};
ghost use Rattle.qs_core.specs.TermTexts.{ordinal_text, temporary_text, variable_name};
ghost use Rattle.qs_core.specs.TreeOf.{function_tree, variable_tree};
ghost use Rattle.qs_prooftext_meaning.specs.Contexts.{word_at, words_of_variables, words_of_temporaries};
ghost use Rattle.qs_prooftext_meaning.specs.Contexts.{one_word, AddsWords, GivesWords};
ghost use Rattle.qs_prooftext_meaning.specs.Settings.{typed, words_of, temporary_word};
ghost use Rattle.qs_triples.specs.Mentions.{has_placed_parameter};
ghost use Rattle.qs_triples.specs.Valuations.{if_number, number_if};

use crate::context::Word;
use itoa::Buffer;
use qs_assert::{NumberType, Var, VarKind};
use qs_base::{NoMemory, count};
use qs_calls::Parameter;
use qs_core::{CoreFunction, CoreVariable};
use qs_memory::Scalar;
use std::alloc::Global;

/// The integer type that a scalar type is.
fn number_of(scalar: Scalar) -> Option<NumberType>
    ensures { result ≡ if_number scalar }
{
    match scalar {
        Scalar::Char => Some(NumberType::Char),
        Scalar::Int => Some(NumberType::Int),
        Scalar::Unsigned => Some(NumberType::Unsigned),
        Scalar::Pointer => None,
    }
}

/// The variable that stands for the result, where that is an integer.
pub fn returned(result_type: Option<Scalar>) -> Option<Var>
    ensures { result ≡ typed VarKind.Returned (number_if result_type) }
{
    let number = number_of(result_type?)?;
    Some(Var {
        kind: VarKind::Returned,
        number,
    })
}

fn put(out: &mut Vec<u8>, text: &[u8]) -> Result<(), NoMemory>
    ensures { OnOk result (out.new.items ≡ out.old.items ++ text.now) }
{
    out.extend_from_slice(text)?;
    Ok(())
}

fn put_number(out: &mut Vec<u8>, n: u32) -> Result<(), NoMemory>
    ensures { OnOk result (out.new.items ≡ out.old.items ++ decimal n) }
{
    let mut digits = Buffer::new();
    put(out, digits.format(n).as_bytes())
}

fn put_ordinal(out: &mut Vec<u8>, k: u32) -> Result<(), NoMemory>
    ensures { OnOk result (out.new.items ≡ out.old.items ++ ordinal_text k) }
{
    if k == 1 {
        return Ok(());
    }
    put(out, b"#")?;
    put_number(out, k)
}

fn name_of(alloc: Global, v: &CoreVariable) -> Result<Vec<u8>, NoMemory>
    ensures { IfOk result (λ text. text.items ≡ variable_name (variable_tree v.now)) }
{
    let mut text = Vec::from_slice(alloc, v.name.bytes())?;
    put_ordinal(&mut text, v.ordinal)?;
    Ok(text)
}

fn temporary_name(alloc: Global, number: u32) -> Result<Vec<u8>, NoMemory>
    ensures { IfOk result (λ text. text.items ≡ temporary_text number) }
{
    let mut text = Vec::from_slice(alloc, b"$")?;
    put_number(&mut text, number)?;
    Ok(text)
}

fn is_placed(function: &CoreFunction, number: usize) -> bool
    ensures { result ≡ has_placed_parameter (function_tree function.now) number }
{
    match function.parameters.get(number) {
        None => false,
        Some(parameter) => match parameter.place {
            Parameter::Plain(_) => false,
            Parameter::Placed(_, _) => true,
        },
    }
}

fn put_word(
    words: &mut Vec<Word>,
    text: Vec<u8>,
    kind: VarKind,
    number: NumberType,
) -> Result<(), NoMemory>
    ensures { AddsWords words.old (one_word text.items kind number) words.new result }
{
    words.push(Word {
        text,
        variable: Var { kind, number },
    })?;
    Ok(())
}

fn put_variable(
    alloc: Global,
    function: &CoreFunction,
    number: usize,
    v: &CoreVariable,
    words: &mut Vec<Word>,
) -> Result<(), NoMemory>
    ensures { AddsWords words.old (word_at function.now number v.now) words.new result }
{
    if is_placed(function, number) {
        return Ok(());
    }
    match number_of(v.scalar) {
        None => Ok(()),
        Some(type_of) => put_word(
            words,
            name_of(alloc, v)?,
            VarKind::Plain(count(number)?),
            type_of,
        ),
    }
}

fn put_temporary(
    alloc: Global,
    number: usize,
    scalar: Scalar,
    words: &mut Vec<Word>,
) -> Result<(), NoMemory>
    ensures { AddsWords words.old (temporary_word number scalar) words.new result }
{
    match number_of(scalar) {
        None => Ok(()),
        Some(type_of) => {
            let index = count(number)?;
            put_word(
                words,
                temporary_name(alloc, index)?,
                VarKind::Temporary(index),
                type_of,
            )
        }
    }
}

fn put_variables(
    alloc: Global,
    function: &CoreFunction,
    words: &mut Vec<Word>,
) -> Result<(), NoMemory>
    ensures { AddsWords words.old (words_of_variables function.now) words.new result }
{
    let mut number: usize = 0;
    for v in function.variables.as_slice() {
        put_variable(alloc, function, number, v, words)?;
        number += 1;
    }
    Ok(())
}

fn put_temporaries(
    alloc: Global,
    function: &CoreFunction,
    words: &mut Vec<Word>,
) -> Result<(), NoMemory>
    ensures { AddsWords words.old (words_of_temporaries function.now) words.new result }
{
    let mut number: usize = 0;
    for scalar in function.temporaries.as_slice() {
        put_temporary(alloc, number, *scalar, words)?;
        number += 1;
    }
    Ok(())
}

/// The words of the variables and temporaries of integer type of a function. Nothing stops it but
/// want of memory.
pub fn words_of(alloc: Global, function: &CoreFunction) -> Result<Vec<Word>, NoMemory>
    ensures { GivesWords (words_of (function_tree function.now)) result }
{
    let mut words = Vec::new(alloc);
    put_variables(alloc, function, &mut words)?;
    put_temporaries(alloc, function, &mut words)?;
    Ok(words)
}
