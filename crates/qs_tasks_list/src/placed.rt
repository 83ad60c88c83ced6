// The lines of a list, each of the form that may stand there.
ghost use Rattle.std.specs.Prelude.{◌≡◌, ◌+◌, ◌++◌, ◌∷◌, []};
ghost use Rattle.std.specs.Prelude.{length, map, IfOk};
ghost use Rattle.qs_tasks_list.specs.LinesOf.{ReadsLines, counts_tree, line_tree};
ghost use Rattle.qs_tasks_list.specs.Listing.{counted, lines_from, lines_of};
ghost use Rattle.qs_tasks_list.specs.Listing.{may_follow, no_lines, pieces_of};

use crate::fault::TasksFault;
use crate::lines::{Line, line_of};
use qs_base::{NoMemory, count, sum};
use std::alloc::Global;

/// How many tasks a list has at most.
const MOST_TASKS: u32 = 64;

/// How many arrivals a list has at most.
const MOST_ARRIVALS: u32 = 10_000;

/// A line, and the number of its first byte.
#[derive(Drop)]
pub struct Placed {
    pub at: u32,
    pub line: Line,
}

/// How many lines of tasks and of arrivals there were.
#[derive(Clone, Copy)]
pub struct Counts {
    pub tasks: u32,
    pub arrivals: u32,
}

fn may_follow(counts: Counts, line: &Line) -> bool
    ensures { result ≡ may_follow (counts_tree counts) (line_tree line.now) }
{
    match line {
        Line::Task { .. } => counts.arrivals == 0 && counts.tasks < MOST_TASKS,
        Line::Arrival { .. } => 0 < counts.tasks && counts.arrivals < MOST_ARRIVALS,
    }
}

fn counted(counts: Counts, line: &Line) -> Result<Counts, NoMemory>
    ensures { IfOk result (λ more. counts_tree more ≡ counted (counts_tree counts) (line_tree line.now)) }
{
    match line {
        Line::Task { .. } => Ok(Counts {
            tasks: sum(counts.tasks, 1)?,
            arrivals: counts.arrivals,
        }),
        Line::Arrival { .. } => Ok(Counts {
            tasks: counts.tasks,
            arrivals: sum(counts.arrivals, 1)?,
        }),
    }
}

// What stands between the new lines.
fn pieces(alloc: Global, text: &[u8]) -> Result<Vec<&[u8]>, NoMemory>
    ensures { IfOk result (λ pieces. map (λ p. p.now) pieces.items ≡ pieces_of text.now) }
{
    Ok(text.split(|byte| *byte == b'\n').collect(alloc)?)
}

// The lines that are whole, and what stands behind the last of them.
fn place_lines(alloc: Global, whole: &[&[u8]], rest: &[u8]) -> Result<Vec<Placed>, TasksFault>
    ensures { ReadsLines (lines_from no_lines 0 (map (λ p. p.now) whole.now ++ rest.now ∷ [])) result }
{
    let mut found = Vec::new(alloc);
    let mut counts = Counts {
        tasks: 0,
        arrivals: 0,
    };
    let mut at: u32 = 0;
    for piece in whole {
        let Some(line) = line_of(alloc, piece)? else {
            return Err(TasksFault::BadLine(at));
        };
        if !may_follow(counts, &line) {
            return Err(TasksFault::BadLine(at));
        }
        counts = counted(counts, &line)?;
        found.push(Placed { at, line })?;
        at = next_line(at, piece)?;
    }
    if rest.is_empty() && 0 < counts.tasks {
        Ok(found)
    } else {
        Err(TasksFault::BadLine(at))
    }
}

// Where the line behind this one begins.
fn next_line(at: u32, line: &[u8]) -> Result<u32, NoMemory>
    ensures { IfOk result (λ next. next ≡ at + length line.now + 1) }
{
    sum(sum(at, count(line.len())?)?, 1)
}

/// The lines of a text, or the first that may not stand where it does.
pub fn lines(alloc: Global, text: &[u8]) -> Result<Vec<Placed>, TasksFault>
    ensures { ReadsLines (lines_of text.now) result }
{
    let pieces = pieces(alloc, text)?;
    match pieces.as_slice() {
        [] => Err(TasksFault::NoMemory),
        [whole @ .., rest] => place_lines(alloc, whole, rest),
    }
}
