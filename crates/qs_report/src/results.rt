// The lines of results.
ghost use Rattle.std.specs.Prelude.{[], ◌∷◌};
ghost use Rattle.qs_ports.specs.SinkView.{PutsOn};
ghost use Rattle.qs_report.specs.Words.{shown_text};
ghost use Rattle.qs_report.specs.Lines.{line, bound_line, calls_line, cost_line, count_line};
ghost use Rattle.qs_report.specs.Lines.{end_line};

use crate::parts::{put_number, put_pair, put_parts, put_two};
use crate::{Count, Shown};
use itoa::Buffer;
use qs_ports::{Sink, SinkFault};

/// Puts the line `cost NAME N` of a function and its cost in bytes of stack.
pub fn put_cost<K: Sink>(out: &mut K, name: &[u8], cost: u32) -> Result<(), SinkFault>
    ensures { PutsOn K.view out.old out.new (cost_line name.now cost) result }
{
    let mut digits = Buffer::new();
    let cost = digits.format(cost).as_bytes();
    put_parts(out, &[b"cost ", name, b" ", cost, b"\n"])
}

/// Puts a bound behind a word.
pub fn put_shown<K: Sink>(sink: &mut K, head: &[u8], bound: Shown) -> Result<(), SinkFault>
    ensures { PutsOn K.view sink.old sink.new (line (head.now ∷ shown_text bound ∷ [])) result }
{
    match bound {
        Shown::Number(n) => {
            let mut digits = Buffer::new();
            put_two(sink, head, digits.format(n).as_bytes())
        }
        Shown::Infinite => put_two(sink, head, b"infinite"),
        Shown::Wide => put_two(sink, head, b"wide"),
    }
}

/// Puts the line `bound N`, `bound infinite` or `bound wide`.
pub fn put_bound<K: Sink>(out: &mut K, bound: Shown) -> Result<(), SinkFault>
    ensures { PutsOn K.view out.old out.new (bound_line bound) result }
{
    put_shown(out, b"bound ", bound)
}

/// Puts the line `calls N`, `calls infinite` or `calls wide`.
pub fn put_calls<K: Sink>(out: &mut K, bound: Shown) -> Result<(), SinkFault>
    ensures { PutsOn K.view out.old out.new (calls_line bound) result }
{
    put_shown(out, b"calls ", bound)
}

/// Puts the line `exit S` of a program that ended with this status.
pub fn put_end<K: Sink>(log: &mut K, status: u8) -> Result<(), SinkFault>
    ensures { PutsOn K.view log.old log.new (end_line status) result }
{
    put_number(log, b"exit ", u64::from(status))
}

/// Puts the line of a count: `checked A derived B`, `derived B`, `functions F` or `output B`.
pub fn put_count<K: Sink>(out: &mut K, count: Count) -> Result<(), SinkFault>
    ensures { PutsOn K.view out.old out.new (count_line count) result }
{
    match count {
        Count::Checked(given, filled) => put_pair(
            out,
            b"checked ",
            given as u64,
            b" derived ",
            filled as u64,
        ),
        Count::Derived(filled) => put_number(out, b"derived ", filled as u64),
        Count::Functions(count) => put_number(out, b"functions ", u64::from(count)),
        Count::Output(bytes) => put_number(out, b"output ", bytes),
    }
}
