// Lines that are put part by part. Nothing here takes memory.
ghost use Rattle.std.specs.Prelude.{[], ◌∷◌, decimal, flat_map};
ghost use Rattle.qs_ports.specs.SinkView.{PutsOn};
ghost use Rattle.qs_report.specs.Lines.{between_line, line, pair_line};

use itoa::Buffer;
use qs_ports::{Sink, SinkFault, put_all};

/// Puts these parts, one after the other.
pub fn put_parts<K: Sink>(sink: &mut K, parts: &[&[u8]]) -> Result<(), SinkFault>
    ensures { PutsOn K.view sink.old sink.new (flat_map (λ part. part.now) parts.now) result }
{
    for part in parts {
        put_all(sink, part)?;
    }
    Ok(())
}

/// Puts a line in two parts.
pub fn put_two<K: Sink>(sink: &mut K, head: &[u8], tail: &[u8]) -> Result<(), SinkFault>
    ensures { PutsOn K.view sink.old sink.new (line (head.now ∷ tail.now ∷ [])) result }
{
    put_parts(sink, &[head, tail, b"\n"])
}

/// Puts a line that ends with a number, in decimal.
pub fn put_number<K: Sink>(sink: &mut K, head: &[u8], number: u64) -> Result<(), SinkFault>
    ensures { PutsOn K.view sink.old sink.new (line (head.now ∷ decimal number ∷ [])) result }
{
    let mut digits = Buffer::new();
    put_two(sink, head, digits.format(number).as_bytes())
}

/// Puts a line in three parts and a number before the last one.
pub fn put_between<K: Sink>(
    sink: &mut K,
    head: &[u8],
    number: u64,
    tail: &[u8],
) -> Result<(), SinkFault>
    ensures { PutsOn K.view sink.old sink.new (between_line head.now number tail.now) result }
{
    let mut digits = Buffer::new();
    put_parts(sink, &[head, digits.format(number).as_bytes(), tail, b"\n"])
}

/// Puts a line with two numbers, each behind a word.
pub fn put_pair<K: Sink>(
    sink: &mut K,
    head: &[u8],
    first: u64,
    middle: &[u8],
    second: u64,
) -> Result<(), SinkFault>
    ensures { PutsOn K.view sink.old sink.new (pair_line head.now first middle.now second) result }
{
    let mut digits = Buffer::new();
    let mut others = Buffer::new();
    let number = digits.format(first).as_bytes();
    let last = others.format(second).as_bytes();
    put_parts(sink, &[head, number, middle, last, b"\n"])
}
