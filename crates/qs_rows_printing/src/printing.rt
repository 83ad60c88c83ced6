// What crates below the tool answer, as text.
use qs_alloc::{assign_unit, verify_unit};
use qs_base::NoMemory;
use qs_cli::{CliFault, read_words};
use qs_elaborate::elaborate;
use qs_isa::{decode, encode};
use qs_lexer::{SOURCE_LIMIT, tokens};
use qs_lower::lower;
use qs_parser::unit;
use qs_print::print;
use qs_rows_tables::{TableFault, linear_text, places_text};
use qs_syntax::Unit;
use qs_syntax_copies::copy_unit;
use qs_syntax_vocabulary::Token;
use qs_tac::Places;
use qs_typing::check;
use std::alloc::{AllocError, Global};

// The unit of a source, where it has one.
fn read(alloc: Global, source: &[u8]) -> Option<Unit> {
    if source.len() > SOURCE_LIMIT {
        return None;
    }
    let tokens = tokens(alloc, source).ok()?;
    unit(alloc, source, &tokens).ok()
}

// The text of the unit, where its copy is printed alike.
fn text_of(alloc: Global, unit: &Unit) -> Result<Option<Vec<u8>>, NoMemory> {
    let text = print(alloc, unit)?;
    let copy = copy_unit(alloc, unit)?;
    if copy.nodes() == unit.nodes() && print(alloc, &copy)? == text {
        Ok(Some(text))
    } else {
        Ok(None)
    }
}

/// The text that the source is printed as, where its copy and the unit that the text reads back to
/// are printed alike; None where they differ, or where the source has no unit. It fails where no
/// memory is found.
pub fn printed_unit(alloc: Global, source: &[u8]) -> Result<Option<Vec<u8>>, TableFault> {
    let Some(unit) = read(alloc, source) else {
        return Ok(None);
    };
    let Some(text) = text_of(alloc, &unit)? else {
        return Ok(None);
    };
    let Some(again) = read(alloc, &text) else {
        return Ok(None);
    };
    if again.nodes() == unit.nodes() && text_of(alloc, &again)?.as_ref() == Some(&text) {
        Ok(Some(text))
    } else {
        Ok(None)
    }
}

/// The linear code of the source; None where it has no unit, or one that is ill typed or beyond the
/// limits. It fails where no memory is found.
pub fn printed_code(alloc: Global, source: &[u8]) -> Result<Option<Vec<u8>>, TableFault> {
    let Some(unit) = read(alloc, source) else {
        return Ok(None);
    };
    let Some(typed) = check(alloc, &unit).ok() else {
        return Ok(None);
    };
    let core = elaborate(alloc, &typed)?;
    let code = lower(alloc, &core)?;
    Ok(Some(linear_text(alloc, &core, &code)?.into_bytes()))
}

// The number that a word is, where there is one.
fn number_at(words: &[String], k: usize) -> Option<usize> {
    words.get(k)?.as_str().parse::<usize>().ok()
}

// A temporary of a function is moved to the place of another: the numbers of the function, of the
// other, and of the one that is moved. Nothing is moved where there are no such numbers.
fn share(all: &mut [Places], words: &[String]) {
    let (Some(f), Some(t), Some(u)) = (
        number_at(words, 0),
        number_at(words, 1),
        number_at(words, 2),
    ) else {
        return;
    };
    if f < all.len() {
        let at = all[f].at.as_mut_slice();
        if t < at.len() && u < at.len() {
            at[u] = at[t];
        }
    }
}

/// The places that the temporaries of the source are given, with one of them moved to that of
/// another where the words say so; None where it has no unit, or one that is ill typed or beyond the
/// limits, or where the test doesn't accept the places. It fails where no memory is found.
pub fn printed_places(
    alloc: Global,
    source: &[u8],
    words: &[String],
) -> Result<Option<Vec<u8>>, TableFault> {
    let Some(unit) = read(alloc, source) else {
        return Ok(None);
    };
    let Some(typed) = check(alloc, &unit).ok() else {
        return Ok(None);
    };
    let core = elaborate(alloc, &typed)?;
    let code = lower(alloc, &core)?;
    let mut places = assign_unit(alloc, &code)?;
    share(&mut places, words);
    if verify_unit(&code, &places) {
        Ok(Some(places_text(alloc, &core, &places)?.into_bytes()))
    } else {
        Ok(None)
    }
}

/// What the words mean, where they mean a command. It fails where no memory is found.
pub fn printed_command(alloc: Global, words: &[String]) -> Result<Option<Vec<u8>>, TableFault> {
    match read_words(alloc, words) {
        Ok(command) => Ok(Some(format!(in alloc; "{command:?}\n")?.into_bytes())),
        Err(CliFault::Usage) => Ok(None),
        Err(CliFault::NoMemory) => Err(TableFault::NoMemory),
    }
}

// A line for each token: what it is, its first byte and the byte behind its last.
fn lines_of(alloc: Global, tokens: &[Token]) -> Result<String, AllocError> {
    let mut text = String::new(alloc);
    for token in tokens {
        let (kind, start, end) = (token.kind, token.start, token.end);
        let line = format!(in alloc; "{kind:?} {start} {end}\n")?;
        text.push_str(line.as_str())?;
    }
    Ok(text)
}

/// The tokens of the source, or its first fault; None where it is too long. It fails where no memory
/// is found for the text.
pub fn printed_tokens(alloc: Global, source: &[u8]) -> Result<Option<Vec<u8>>, TableFault> {
    if source.len() > SOURCE_LIMIT {
        return Ok(None);
    }
    match tokens(alloc, source) {
        Ok(tokens) => Ok(Some(lines_of(alloc, &tokens)?.into_bytes())),
        Err(fault) => Ok(Some(format!(in alloc; "{fault:?}\n")?.into_bytes())),
    }
}

// The instruction that a word is and the word of that instruction.
fn line_of(alloc: Global, word: u32) -> Result<String, AllocError> {
    match decode(word) {
        Some(instruction) => {
            let again = encode(&instruction);
            format!(in alloc; "{instruction:?} {again:08x}\n")
        }
        None => format!(in alloc; "none\n"),
    }
}

/// A line for each word, a hexadecimal number: the instruction that it is, and the word of that
/// instruction; None where a word is no such number. It fails where no memory is found.
pub fn printed_instructions(
    alloc: Global,
    words: &[String],
) -> Result<Option<Vec<u8>>, TableFault> {
    let mut text = String::new(alloc);
    for word in words {
        let Ok(word) = u32::from_str_radix(word.as_str(), 16) else {
            return Ok(None);
        };
        let line = line_of(alloc, word)?;
        text.push_str(line.as_str())?;
    }
    Ok(Some(text.into_bytes()))
}
