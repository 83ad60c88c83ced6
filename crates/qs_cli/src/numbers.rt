// Numbers in the words.
ghost use Rattle.std.specs.Prelude.{◌≡◌, ◌≤◌, ◌<◌, ◌^◌, IfSome, IfOk, Some, None, ◌==◌};
ghost use Rattle.std.specs.List.{list_all, slice_split};
ghost use Rattle.qs_base.specs.Bytes.{is_digit};
ghost use Rattle.qs_base.specs.Characters.{comma};
ghost use Rattle.qs_cli.specs.Numbers.{number_of, count_of, signed_of, all_signed_of, steps_of};
ghost use Rattle.qs_cli.specs.Numbers.{arguments_of};
ghost use Rattle.qs_cli.specs.Reading.{lent_text, lent_texts, IsUsage};

use crate::commands::CliFault;
use qs_base::{MOST_MAIN_PARAMETERS, is_digit};
use std::alloc::{AllocError, Global};

/// The most functions of a sample beside `main`.
pub const MOST_SAMPLE_FUNCTIONS: u64 = 500;

/// The most steps of a run, where the words name no number.
pub const DEFAULT_STEPS: u64 = 100_000_000;

/// The most steps of a run that the words can name.
pub const MOST_STEPS: u64 = 1_000_000_000;

/// The most arguments of `main` that the words can name.
pub const MOST_ARGUMENTS: usize = MOST_MAIN_PARAMETERS as usize;

fn are_digits(text: &str) -> bool
    ensures { result ≡ list_all is_digit text.now }
{
    text.bytes().all(|byte| is_digit(byte))
}

/// 1 to `most` decimal digits.
pub(crate) fn number(text: &str, most: usize) -> Option<u64>
    requires { most ≤ 19 }
    ensures value { result ≡ number_of most text.now }
    ensures small { IfSome result (λ n. n < 10 ^ most) }
{
    if 0 < text.len() && text.len() <= most && are_digits(text) {
        text.parse::<u64>().ok()
    } else {
        None
    }
}

/// 1 to 19 decimal digits, a number from 1 to `MOST_SAMPLE_FUNCTIONS`.
pub(crate) fn count(text: &str) -> Option<u64>
    ensures { result ≡ count_of text.now }
{
    let n = number(text, 19)?;
    if 1 <= n && n <= MOST_SAMPLE_FUNCTIONS {
        Some(n)
    } else {
        None
    }
}

/// 1 to 10 decimal digits, a number from 1 to `MOST_STEPS`. Without a text `DEFAULT_STEPS`.
pub(crate) fn steps(text: Option<&str>) -> Option<u64>
    ensures { result ≡ steps_of (lent_text text.entry) }
{
    let Some(text) = text else {
        return Some(DEFAULT_STEPS);
    };
    let n = number(text, 10)?;
    if 1 <= n && n <= MOST_STEPS {
        Some(n)
    } else {
        None
    }
}

/// An optional `-` and 1 to 10 decimal digits.
fn signed(text: &str) -> Option<i64>
    ensures { result ≡ signed_of text.now }
{
    match text.strip_prefix('-') {
        Some(digits) => {
            let n = number(digits, 10)?;
            Some(-(n as i64))
        }
        None => {
            let n = number(text, 10)?;
            Some(n as i64)
        }
    }
}

/// The texts between the commas.
fn comma_parts(alloc: Global, text: &str) -> Result<Vec<&str>, AllocError>
    ensures { IfOk result (λ v. lent_texts v.items ≡ slice_split (λ b. b == comma) text.now) }
{
    text.split(',').collect(alloc)
}

fn all_signed(alloc: Global, parts: &[&str]) -> Result<Vec<i64>, CliFault>
    ensures ok { IfOk result (λ v. all_signed_of (lent_texts parts.now) ≡ Some v.items) }
    ensures usage { IsUsage result → all_signed_of (lent_texts parts.now) ≡ None }
{
    let mut numbers = Vec::new(alloc);
    for part in parts {
        let Some(number) = signed(part) else {
            return Err(CliFault::Usage);
        };
        numbers.push(number)?;
    }
    Ok(numbers)
}

/// 1 to `MOST_ARGUMENTS` such numbers with commas between. Without a text none.
pub(crate) fn arguments(alloc: Global, text: Option<&str>) -> Result<Vec<i64>, CliFault>
    ensures ok { IfOk result (λ v. arguments_of (lent_text text.entry) ≡ Some v.items) }
    ensures usage { IsUsage result → arguments_of (lent_text text.entry) ≡ None }
{
    let Some(text) = text else {
        return Ok(Vec::new(alloc));
    };
    let parts = comma_parts(alloc, text)?;
    if parts.len() > MOST_ARGUMENTS {
        return Err(CliFault::Usage);
    }
    all_signed(alloc, &parts)
}
