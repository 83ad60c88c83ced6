// Numbers and bytes in digits.
ghost use Rattle.std.specs.Prelude.{◌≡◌, ◌<◌, ◌≤◌, option_map, IfOk, IfSome};
ghost use Rattle.std.specs.List.{list_all};
ghost use Rattle.qs_base.specs.Bytes.{is_digit};
ghost use Rattle.qs_tasks_list.specs.Lines.{hex_digit, input_of, joined, number_of, pairs_of};
ghost use Rattle.qs_tasks_list.specs.Lines.{up_to, value_from};
ghost use Rattle.qs_tasks_list.specs.LinesOf.{bytes_of};

use qs_base::{NoMemory, is_between, is_digit};
use std::alloc::Global;

/// How many digits a number has at most.
const MOST_DIGITS: usize = 10;

fn are_digits(word: &[u8]) -> bool
    ensures { result ≡ list_all is_digit word.now }
{
    word.iter().all(|byte| is_digit(*byte))
}

fn value_up_to(digits: &[u8], most: u32) -> Option<u32>
    ensures { result ≡ up_to most (value_from 0 digits.now) }
{
    let mut value: u64 = 0;
    for digit in digits {
        value = value * 10 + (*digit).saturating_sub(b'0') as u64;
        if value > most as u64 {
            return None;
        }
    }
    Some(value as u32)
}

/// 1 to 10 decimal digits, a number up to the most.
pub fn number(word: &[u8], most: u32) -> Option<u32>
    ensures value { result ≡ number_of most word.now }
    ensures small { IfSome result (λ n. n ≤ most) }
{
    if word.is_empty() || word.len() > MOST_DIGITS || !are_digits(word) {
        return None;
    }
    value_up_to(word, most)
}

fn hex_digit(byte: u8) -> Option<u8>
    ensures value { result ≡ hex_digit byte }
    ensures small { IfSome result (λ digit. digit < 16) }
{
    if is_digit(byte) {
        Some(byte - b'0')
    } else if is_between(b'a', b'f', byte) {
        Some(byte - b'a' + 10)
    } else {
        None
    }
}

fn joined(high: u8, low: u8) -> Option<u8>
    ensures { result ≡ joined (hex_digit high) (hex_digit low) }
{
    let high = hex_digit(high)?;
    let low = hex_digit(low)?;
    Some(16 * high + low)
}

fn pairs(alloc: Global, digits: &[u8]) -> Result<Option<Vec<u8>>, NoMemory>
    ensures { IfOk result (λ bytes. option_map bytes_of bytes ≡ pairs_of digits.now) }
{
    let mut bytes = Vec::new(alloc);
    let mut rest = digits;
    'pairs: while let [high, low, others @ ..] = rest {
        let Some(byte) = joined(*high, *low) else {
            return Ok(None);
        };
        bytes.push(byte)?;
        rest = others;
    }
    if rest.is_empty() {
        Ok(Some(bytes))
    } else {
        Ok(None)
    }
}

/// One pair of hexadecimal digits or more, as bytes.
pub fn input(alloc: Global, word: &[u8]) -> Result<Option<Vec<u8>>, NoMemory>
    ensures { IfOk result (λ bytes. option_map bytes_of bytes ≡ input_of word.now) }
{
    if word.is_empty() {
        return Ok(None);
    }
    pairs(alloc, word)
}
