// The lines of faults.
ghost use Rattle.std.specs.Prelude.{decimal};
ghost use Rattle.qs_ports.specs.SinkView.{PutsOn};
ghost use Rattle.qs_report.specs.Words.{rule_text};
ghost use Rattle.qs_report.specs.Lines.{PutsAt, both_at, fault_line, line_at};
ghost use Rattle.qs_report.specs.Lines.{argument_line, arguments_line, elf_line, image_line};
ghost use Rattle.qs_report.specs.Lines.{labelled_line, trap_line};

use crate::derivation_faults::{put_cycle, put_proof_fault};
use crate::parts::{put_between, put_number, put_pair, put_parts, put_two};
use crate::results::put_shown;
use crate::words::{lex_word, limit_word, proof_file_word, trap_word};
use crate::{ElfText, FaultText};
use hex::encode_to_slice;
use itoa::Buffer;
use qs_base::Pos;
use qs_image::ImageFault;
use qs_machine::Cause;
use qs_ports::{Sink, SinkFault};
use qs_types::Rule;

// Puts a line at a line and a column of a file, whose text has two parts.
fn put_place<K: Sink>(
    log: &mut K,
    file: &[u8],
    line: &[u8],
    column: &[u8],
    text: &[u8],
    more: &[u8],
) -> Result<(), SinkFault>
    ensures { PutsAt K.view log.old log.new file.now line.now column.now text.now more.now result }
{
    put_parts(
        log,
        &[file, b":", line, b":", column, b": ", text, more, b"\n"],
    )
}

// Puts a line at a place of a file, whose text has two parts.
fn put_both_at<K: Sink>(
    log: &mut K,
    file: &[u8],
    pos: Pos,
    text: &[u8],
    more: &[u8],
) -> Result<(), SinkFault>
    ensures { PutsOn K.view log.old log.new (both_at file.now pos text.now more.now) result }
{
    let mut lines = Buffer::new();
    let mut columns = Buffer::new();
    let line = lines.format(pos.line).as_bytes();
    let column = columns.format(pos.column).as_bytes();
    put_place(log, file, line, column, text, more)
}

// Puts a line at a place of a file.
fn put_at<K: Sink>(log: &mut K, file: &[u8], pos: Pos, text: &str) -> Result<(), SinkFault>
    ensures { PutsOn K.view log.old log.new (line_at file.now pos text.now) result }
{
    put_both_at(log, file, pos, text.as_bytes(), b"")
}

fn put_rule<K: Sink>(log: &mut K, file: &[u8], pos: Pos, rule: Rule) -> Result<(), SinkFault>
    ensures { PutsOn K.view log.old log.new (line_at file.now pos (rule_text rule)) result }
{
    let mut digits = Buffer::new();
    put_both_at(
        log,
        file,
        pos,
        b"rule K",
        digits.format(rule.number()).as_bytes(),
    )
}

// Puts a text of two parts behind a file and what is told of it.
fn put_labelled<K: Sink>(
    log: &mut K,
    file: &[u8],
    label: &[u8],
    text: &[u8],
    more: &[u8],
) -> Result<(), SinkFault>
    ensures { PutsOn K.view log.old log.new (labelled_line file.now label.now text.now more.now) result }
{
    put_parts(log, &[file, label, text, more, b"\n"])
}

// Puts the same where a number ends it.
fn put_numbered<K: Sink>(
    log: &mut K,
    file: &[u8],
    label: &[u8],
    text: &[u8],
    number: u64,
) -> Result<(), SinkFault>
    ensures { PutsOn K.view log.old log.new (labelled_line file.now label.now text.now (decimal number)) result }
{
    let mut digits = Buffer::new();
    put_labelled(log, file, label, text, digits.format(number).as_bytes())
}

// Puts the line of a fault of an image, which the file is or carries.
fn put_image<K: Sink>(
    log: &mut K,
    file: &[u8],
    label: &[u8],
    fault: ImageFault,
) -> Result<(), SinkFault>
    ensures { PutsOn K.view log.old log.new (image_line file.now label.now fault) result }
{
    match fault {
        ImageFault::Short => put_labelled(log, file, label, b"short", b""),
        ImageFault::Magic => put_labelled(log, file, label, b"magic", b""),
        ImageFault::Count(word) => {
            put_numbered(log, file, label, b"count ", u64::from(word.number()))
        }
        ImageFault::Trailing => put_labelled(log, file, label, b"trailing", b""),
        ImageFault::Entry => put_labelled(log, file, label, b"entry", b""),
        ImageFault::Cost(record) => put_numbered(log, file, label, b"cost ", u64::from(record)),
        ImageFault::Names => put_labelled(log, file, label, b"names", b""),
        ImageFault::Params(record) => {
            put_numbered(log, file, label, b"params ", u64::from(record))
        }
    }
}

fn put_elf<K: Sink>(log: &mut K, file: &[u8], fault: ElfText) -> Result<(), SinkFault>
    ensures { PutsOn K.view log.old log.new (elf_line file.now fault) result }
{
    match fault {
        ElfText::Short => put_labelled(log, file, b": elf ", b"short", b""),
        ElfText::Length(bytes) => put_numbered(log, file, b": elf ", b"length ", bytes),
        ElfText::Field(at) => put_numbered(log, file, b": elf ", b"field ", at),
        ElfText::Image(fault) => put_image(log, file, b": elf ", fault),
        ElfText::Differs(word) => {
            put_numbered(log, file, b": elf ", b"differs ", u64::from(word))
        }
    }
}

fn put_trap<K: Sink>(log: &mut K, cause: Cause, pc: u32) -> Result<(), SinkFault>
    ensures { PutsOn K.view log.old log.new (trap_line cause pc) result }
{
    let mut digits = [0; 8];
    let place = pc.to_be_bytes();
    encode_to_slice(place.as_slice(), &mut digits).unwrap();
    let text = trap_word(cause).as_bytes();
    put_parts(log, &[b"trap ", text, b" at 0x", digits.as_slice(), b"\n"])
}

/// Puts the line `arguments: expected E given G`.
pub fn put_arg_count<K: Sink>(log: &mut K, expected: u64, given: u64) -> Result<(), SinkFault>
    ensures { PutsOn K.view log.old log.new (arguments_line expected given) result }
{
    put_pair(log, b"arguments: expected ", expected, b" given ", given)
}

/// Puts the line `argument I out of range`.
pub fn put_arg_range<K: Sink>(log: &mut K, argument: u64) -> Result<(), SinkFault>
    ensures { PutsOn K.view log.old log.new (argument_line argument) result }
{
    put_between(log, b"argument ", argument, b" out of range")
}

/// Puts the line of a fault. The file and the function or definition have these names in it, where
/// it has them.
pub fn put_fault<K: Sink>(
    log: &mut K,
    file: &[u8],
    name: &[u8],
    fault: &FaultText,
) -> Result<(), SinkFault>
    ensures { PutsOn K.view log.old log.new (fault_line file.now name.now fault.now) result }
{
    match fault {
        FaultText::Usage => put_two(log, b"usage: qsc COMMAND FILE OPTIONS", b""),
        FaultText::SameName => put_two(log, b"same name: ", file),
        FaultText::Missing => put_two(log, b"missing: ", file),
        FaultText::Failed => put_two(log, b"failed: ", file),
        FaultText::TooLong => put_two(log, b"too long: ", file),
        FaultText::Lex(pos, fault) => put_at(log, file, *pos, lex_word(*fault)),
        FaultText::UnexpectedToken(pos) => put_at(log, file, *pos, "unexpected token"),
        FaultText::UnexpectedEnd(pos) => put_at(log, file, *pos, "unexpected end"),
        FaultText::TooDeep(pos) => put_at(log, file, *pos, "too deep"),
        FaultText::Rule(pos, rule) => put_rule(log, file, *pos, *rule),
        FaultText::Limit(pos, kind) => {
            put_both_at(log, file, *pos, b"limit ", limit_word(*kind).as_bytes())
        }
        FaultText::NoMain => put_two(log, file, b": no main"),
        FaultText::NoBody(pos) => put_at(log, file, *pos, "no body"),
        FaultText::ProofFile(pos, fault) => put_at(log, file, *pos, proof_file_word(*fault)),
        FaultText::Cycle(names) => put_cycle(log, names),
        FaultText::Proof(spot, text) => put_proof_fault(log, file, name, spot, text),
        FaultText::NoEntry => put_parts(log, &[file, b": no entry ", name, b"\n"]),
        FaultText::Order => put_parts(log, &[file, b": order ", name, b"\n"]),
        FaultText::ArgCount(expected, given) => {
            put_arg_count(log, u64::from(*expected), u64::from(*given))
        }
        FaultText::ArgRange(argument) => put_arg_range(log, u64::from(*argument)),
        FaultText::Image(fault) => put_image(log, file, b": image ", *fault),
        FaultText::Elf(fault) => put_elf(log, file, *fault),
        FaultText::Trapped(cause, pc) => put_trap(log, *cause, *pc),
        FaultText::StepLimit(steps) => put_number(log, b"step limit ", *steps),
        FaultText::NoBound(bound) => put_shown(log, b"no bound: ", *bound),
        FaultText::StackTooLarge(size) => put_number(log, b"stack too large: ", *size),
        FaultText::NoMemory => put_two(log, b"out of memory", b""),
    }
}
