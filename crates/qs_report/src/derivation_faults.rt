// The lines of faults in derivations.
ghost use Rattle.std.specs.Prelude.{flat_map};
ghost use Rattle.qs_ports.specs.SinkView.{PutsOn};
ghost use Rattle.qs_report.specs.Words.{both_paths, path_after, path_text, spaced, spot_text};
ghost use Rattle.qs_report.specs.Words.{step_text};
ghost use Rattle.qs_report.specs.Lines.{cycle_line, names_end, proof_end, spot_line, spot_end};

use crate::parts::{put_number, put_parts, put_two};
use crate::{Path, ProofText, Spot};
use itoa::Buffer;
use qs_base::Name;
use qs_ports::{Sink, SinkFault, put_all};

// Puts a point and the number of a part.
fn put_step<K: Sink>(log: &mut K, part: usize) -> Result<(), SinkFault>
    ensures { PutsOn K.view log.old log.new (step_text part) result }
{
    let mut digits = Buffer::new();
    put_parts(log, &[b".", digits.format(part).as_bytes()])
}

fn put_steps<K: Sink>(log: &mut K, steps: &[usize]) -> Result<(), SinkFault>
    ensures { PutsOn K.view log.old log.new (flat_map step_text steps.now) result }
{
    for part in steps {
        put_step(log, *part)?;
    }
    Ok(())
}

fn put_path<K: Sink>(log: &mut K, steps: &[usize]) -> Result<(), SinkFault>
    ensures { PutsOn K.view log.old log.new (path_text steps.now) result }
{
    if steps.is_empty() {
        put_all(log, b".")
    } else {
        put_steps(log, steps)
    }
}

// Puts a word, and a path behind it.
fn put_path_after<K: Sink>(log: &mut K, before: &[u8], path: &Path) -> Result<(), SinkFault>
    ensures { PutsOn K.view log.old log.new (path_after before.now path.now) result }
{
    put_all(log, before)?;
    put_path(log, &path.steps)
}

fn put_both_paths<K: Sink>(log: &mut K, node: &Path, path: &Path) -> Result<(), SinkFault>
    ensures { PutsOn K.view log.old log.new (both_paths node.now path.now) result }
{
    put_path_after(log, b"body ", node)?;
    put_path_after(log, b" cert ", path)
}

fn put_spot<K: Sink>(log: &mut K, spot: &Spot) -> Result<(), SinkFault>
    ensures { PutsOn K.view log.old log.new (spot_text spot.now) result }
{
    match spot {
        Spot::Pre => put_all(log, b"pre"),
        Spot::Post => put_all(log, b"post"),
        Spot::Entry(path) => put_path_after(log, b"entry ", path),
        Spot::Body(path) => put_path_after(log, b"body ", path),
        Spot::BodyCert(node, path) => put_both_paths(log, node, path),
    }
}

// Puts the end of a line: what is wrong there.
fn put_proof_text<K: Sink>(log: &mut K, text: &ProofText) -> Result<(), SinkFault>
    ensures { PutsOn K.view log.old log.new (proof_end text.now) result }
{
    match text {
        ProofText::Shape => put_two(log, b": ", b"shape"),
        ProofText::Mentions(variable) => put_two(log, b": mentions ", variable.bytes()),
        ProofText::Step(rule) => put_number(log, b": step ", u64::from(rule.number())),
        ProofText::Limit(limit) => put_number(log, b": limit ", u64::from(limit.number())),
    }
}

// Puts the end of a line: a place, and what is wrong there.
fn put_place<K: Sink>(log: &mut K, spot: &Spot, text: &ProofText) -> Result<(), SinkFault>
    ensures { PutsOn K.view log.old log.new (spot_end spot.now text.now) result }
{
    put_spot(log, spot)?;
    put_proof_text(log, text)
}

/// Puts the line of a fault in the derivation of a function.
pub fn put_proof_fault<K: Sink>(
    log: &mut K,
    file: &[u8],
    name: &[u8],
    spot: &Spot,
    text: &ProofText,
) -> Result<(), SinkFault>
    ensures { PutsOn K.view log.old log.new (spot_line file.now name.now spot.now text.now) result }
{
    put_parts(log, &[file, b": ", name, b" "])?;
    put_place(log, spot, text)
}

fn put_name<K: Sink>(log: &mut K, name: &Name) -> Result<(), SinkFault>
    ensures { PutsOn K.view log.old log.new (spaced name.now) result }
{
    put_parts(log, &[b" ", name.bytes()])
}

fn put_names<K: Sink>(log: &mut K, names: &[Name]) -> Result<(), SinkFault>
    ensures { PutsOn K.view log.old log.new (flat_map spaced names.now) result }
{
    for name in names {
        put_name(log, name)?;
    }
    Ok(())
}

// Puts the end of a line: the names of functions.
fn put_last_names<K: Sink>(log: &mut K, names: &[Name]) -> Result<(), SinkFault>
    ensures { PutsOn K.view log.old log.new (names_end names.now) result }
{
    put_names(log, names)?;
    put_all(log, b"\n")
}

/// Puts the line of functions that call each other and have no derivation.
pub fn put_cycle<K: Sink>(log: &mut K, names: &[Name]) -> Result<(), SinkFault>
    ensures { PutsOn K.view log.old log.new (cycle_line names.now) result }
{
    put_all(log, b"recursion without derivation:")?;
    put_last_names(log, names)
}
