// Lines of a list of tasks.
ghost use Rattle.std.specs.Prelude.{◌≡◌, map, option_map, IfOk};
ghost use Rattle.qs_tasks_list.specs.Lines.{arrival_with, line_of, line_of_four, line_of_three};
ghost use Rattle.qs_tasks_list.specs.Lines.{most_instructions, most_priority, number_of};
ghost use Rattle.qs_tasks_list.specs.Lines.{some_name, task_with, words_of};
ghost use Rattle.qs_tasks_list.specs.LinesOf.{MakesLine, bytes_of};

use crate::numbers::{input, number};
use qs_base::{Name, NoMemory, is_name};
use std::alloc::Global;

/// The greatest priority.
const MOST_PRIORITY: u32 = 255;

/// The most instructions that come before an arrival.
const MOST_INSTRUCTIONS: u32 = 1_000_000_000;

/// What a line says.
#[derive(Drop)]
pub enum Line {
    /// `task NAME P` or `task NAME P HEX`.
    Task {
        name: Name,
        priority: u8,
        input: Vec<u8>,
    },
    /// `arrive AT NAME`.
    Arrival {
        at: u64,
        name: Name,
    },
}

// What stands between single blanks.
fn words(alloc: Global, line: &[u8]) -> Result<Vec<&[u8]>, NoMemory>
    ensures { IfOk result (λ words. map (λ w. w.now) words.items ≡ words_of line.now) }
{
    Ok(line.split(|byte| *byte == b' ').collect(alloc)?)
}

fn some_name(alloc: Global, word: &[u8]) -> Result<Option<Name>, NoMemory>
    ensures { IfOk result (λ name. name ≡ some_name word.now) }
{
    if is_name(word) {
        Ok(Some(Name::new(alloc, word)?))
    } else {
        Ok(None)
    }
}

fn task_line(
    alloc: Global,
    name: &[u8],
    priority: &[u8],
    input: Option<Vec<u8>>,
) -> Result<Option<Line>, NoMemory>
    ensures { MakesLine (task_with (some_name name.now) (number_of most_priority priority.now)
        (option_map bytes_of input)) result }
{
    let Some(name) = some_name(alloc, name)? else {
        return Ok(None);
    };
    let Some(priority) = number(priority, MOST_PRIORITY) else {
        return Ok(None);
    };
    let Some(input) = input else {
        return Ok(None);
    };
    Ok(Some(Line::Task {
        name,
        priority: priority as u8,
        input,
    }))
}

fn arrival_line(alloc: Global, at: &[u8], name: &[u8]) -> Result<Option<Line>, NoMemory>
    ensures { MakesLine (arrival_with (number_of most_instructions at.now) (some_name name.now)) result }
{
    let Some(at) = number(at, MOST_INSTRUCTIONS) else {
        return Ok(None);
    };
    let Some(name) = some_name(alloc, name)? else {
        return Ok(None);
    };
    Ok(Some(Line::Arrival {
        at: u64::from(at),
        name,
    }))
}

fn line_of_three(
    alloc: Global,
    first: &[u8],
    second: &[u8],
    third: &[u8],
) -> Result<Option<Line>, NoMemory>
    ensures { MakesLine (line_of_three first.now second.now third.now) result }
{
    if first == b"task".as_slice() {
        task_line(alloc, second, third, Some(Vec::new(alloc)))
    } else if first == b"arrive".as_slice() {
        arrival_line(alloc, second, third)
    } else {
        Ok(None)
    }
}

fn line_of_four(
    alloc: Global,
    first: &[u8],
    second: &[u8],
    third: &[u8],
    fourth: &[u8],
) -> Result<Option<Line>, NoMemory>
    ensures { MakesLine (line_of_four first.now second.now third.now fourth.now) result }
{
    if first == b"task".as_slice() {
        task_line(alloc, second, third, input(alloc, fourth)?)
    } else {
        Ok(None)
    }
}

/// What a line says; None where it is of no form.
pub fn line_of(alloc: Global, line: &[u8]) -> Result<Option<Line>, NoMemory>
    ensures { MakesLine (line_of line.now) result }
{
    let words = words(alloc, line)?;
    match words.as_slice() {
        [] => Ok(None),
        [_] => Ok(None),
        [_, _] => Ok(None),
        [first, second, third] => line_of_three(alloc, first, second, third),
        [first, second, third, fourth] => line_of_four(alloc, first, second, third, fourth),
        [_, _, _, _, _, ..] => Ok(None),
    }
}
