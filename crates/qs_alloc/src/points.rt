// The points at which a temporary is held: the instructions, and then the entry.
ghost use Rattle.std.specs.Prelude.{◌≡◌, ◌<◌, ◌^◌, ◌↔◌, IsTrue, length, IfOk};
ghost use Rattle.std.specs.List.{list_any, slice_get};
ghost use Rattle.qs_tac.specs.TreeOf.{instruction_tree};
ghost use Rattle.qs_tac.specs.Uses.{reads};
ghost use Rattle.qs_alloc.specs.Verification.{is_among};
ghost use Rattle.qs_alloc.specs.declared.rows.Side.TheVariants.{Written};
ghost use Rattle.qs_alloc.specs.LiveRanges.{Lists};
ghost use Rattle.qs_alloc.specs.Registers as spec;
ghost use Rattle.qs_alloc.specs.Registers.{PointsOf, Crosses, ListedBelow};

use crate::certificate::{is_among, is_written};
use qs_base::NoMemory;
use qs_calls::Parameter;
use qs_tac::Instruction;
use std::alloc::Global;

fn does_read(i: &Instruction, t: u32) -> bool
    ensures { result ≡ is_among (reads (instruction_tree i.now)) t }
{
    for k in 0..i.read_limit() {
        if is_written(i.read_at(k), t) {
            return true;
        }
    }
    false
}

fn is_parameter(parameters: &[Parameter], t: u32) -> bool
    ensures { result ≡ list_any (spec.is_plain t) parameters.now }
{
    for parameter in parameters {
        if let Parameter::Plain(x) = parameter {
            if *x == t {
                return true;
            }
        }
    }
    false
}

fn is_needed_first(code: &[Instruction], t: u32, live: &[u32]) -> bool
    ensures { result ≡ spec.is_needed_first (slice_get code.now 0) t live.now }
{
    match code.get(0) {
        None => false,
        Some(i) => does_read(i, t) || (is_among(live, 0) && !is_written(i.written(), t)),
    }
}

fn is_held_at_entry(parameters: &[Parameter], code: &[Instruction], t: u32, live: &[u32]) -> bool
    ensures { result ≡ spec.is_held_at_entry parameters.now code.now t live.now }
{
    is_parameter(parameters, t) || is_needed_first(code, t, live)
}

/// Where t is needed after an instruction or written by it, or held at the entry.
pub fn points_of(
    alloc: Global,
    parameters: &[Parameter],
    code: &[Instruction],
    t: u32,
    live: &[u32],
    writers: &[u32],
) -> Result<Vec<u32>, NoMemory>
    requires room { length code.now < 2 ^ 32 }
    requires writers { Lists Written code.now t writers.now }
    ensures { IfOk result (λ points. PointsOf parameters.now code.now t live.now points.items) }
{
    let mut points = Vec::new(alloc);
    points.extend_from_slice(live)?;
    points.extend_from_slice(writers)?;
    if !is_held_at_entry(parameters, code, t, live) {
        return Ok(points);
    }
    points.push(code.len() as u32)?;
    Ok(points)
}

/// Whether one of these is a call.
pub fn crosses(code: &[Instruction], live: &[u32]) -> bool
    requires below { ListedBelow (length code.now) live.now }
    ensures { IsTrue result ↔ Crosses code.now live.now }
{
    for p in live {
        if code[*p as usize].is_call() {
            return true;
        }
    }
    false
}
