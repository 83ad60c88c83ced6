// The line that tells a status. Nothing here takes memory.
ghost use Rattle.std.specs.Prelude.{◌≡◌};
ghost use Rattle.qs_ports.specs.SinkView.{PutsOn};
ghost use Rattle.qs_driver_session.specs.Faults.{elf_text, lex_text, line_of, named_line};
ghost use Rattle.qs_driver_session.specs.Faults.{placed_text, pos_of, proof_file_text, shown_of};
ghost use Rattle.qs_driver_session.specs.Faults.{syntax_text, typing_text, unexpected_text};

use crate::names::{FileNames, file_name};
use crate::{ProofFault, SourceFault, Status, TokenPlace, WordsFault};
use qs_assert::Amount;
use qs_base::Pos;
use qs_elf::ElfFault;
use qs_lexer::{FaultKind, LexFault};
use qs_parser::SyntaxFault;
use qs_ports::{Sink, SinkFault};
use qs_prooftext_meaning::TextFault;
use qs_report::{
    ElfText, FaultText, ProofFileText, Shown, put_arg_count, put_arg_range, put_cycle, put_fault,
    put_proof_fault,
};
use qs_typing_findings::TypeFault;

fn lex_text(fault: LexFault, pos: Pos) -> FaultText
    ensures { result ≡ lex_text fault pos }
{
    match fault {
        LexFault::NoMemory => FaultText::NoMemory,
        LexFault::BadByte(_) => FaultText::Lex(pos, FaultKind::BadByte),
        LexFault::OpenComment(_) => FaultText::Lex(pos, FaultKind::OpenComment),
        LexFault::BadLiteral(_) => FaultText::Lex(pos, FaultKind::BadLiteral),
        LexFault::WideLiteral(_) => FaultText::Lex(pos, FaultKind::WideLiteral),
        LexFault::Directive(_) => FaultText::Lex(pos, FaultKind::Directive),
        LexFault::OpenText(_) => FaultText::Lex(pos, FaultKind::OpenText),
    }
}

fn unexpected_text(place: TokenPlace) -> FaultText
    ensures { result ≡ unexpected_text place }
{
    match place {
        TokenPlace::At(pos) => FaultText::UnexpectedToken(pos),
        TokenPlace::End(pos) => FaultText::UnexpectedEnd(pos),
    }
}

fn pos_of(place: TokenPlace) -> Pos
    ensures { result ≡ pos_of place }
{
    match place {
        TokenPlace::At(pos) => pos,
        TokenPlace::End(pos) => pos,
    }
}

fn syntax_text(fault: SyntaxFault, place: TokenPlace) -> FaultText
    ensures { result ≡ syntax_text fault place }
{
    match fault {
        SyntaxFault::NoMemory => FaultText::NoMemory,
        SyntaxFault::Unexpected(_) => unexpected_text(place),
        SyntaxFault::TooDeep(_) => FaultText::TooDeep(pos_of(place)),
    }
}

fn placed_text(fault: TypeFault, pos: Pos) -> FaultText
    ensures { result ≡ placed_text fault pos }
{
    match fault {
        TypeFault::Rule(_, rule) => FaultText::Rule(pos, rule),
        TypeFault::Limit(kind, _) => FaultText::Limit(pos, kind),
        TypeFault::NoMain => FaultText::NoMain,
        TypeFault::Undefined(_) => FaultText::NoBody(pos),
        TypeFault::NoMemory => FaultText::NoMemory,
    }
}

fn typing_text(fault: TypeFault, place: Option<Pos>) -> FaultText
    ensures { result ≡ typing_text fault place }
{
    match place {
        Some(pos) => placed_text(fault, pos),
        None => FaultText::NoMain,
    }
}

fn proof_file_text(fault: TextFault, pos: Pos) -> FaultText
    ensures { result ≡ proof_file_text fault pos }
{
    match fault {
        TextFault::NoMemory => FaultText::NoMemory,
        TextFault::BadByte(_) => FaultText::ProofFile(pos, ProofFileText::BadByte),
        TextFault::Unbalanced(_) => FaultText::ProofFile(pos, ProofFileText::Unbalanced),
        TextFault::UnknownForm(_) => FaultText::ProofFile(pos, ProofFileText::UnknownForm),
        TextFault::BadNumber(_) => FaultText::ProofFile(pos, ProofFileText::BadNumber),
        TextFault::TooDeep(_) => FaultText::ProofFile(pos, ProofFileText::TooDeep),
        TextFault::Duplicate(_) => FaultText::ProofFile(pos, ProofFileText::Duplicate),
        TextFault::NoSuchFunction(_) => FaultText::ProofFile(pos, ProofFileText::NoSuchFunction),
    }
}

fn elf_text(fault: &ElfFault) -> FaultText
    ensures { result ≡ elf_text fault.now }
{
    match fault {
        ElfFault::Short => FaultText::Elf(ElfText::Short),
        ElfFault::Length(bytes) => FaultText::Elf(ElfText::Length(*bytes as u64)),
        ElfFault::Field(at) => FaultText::Elf(ElfText::Field(*at as u64)),
        ElfFault::Image(fault) => FaultText::Elf(ElfText::Image(*fault)),
        ElfFault::Differs(word) => FaultText::Elf(ElfText::Differs(word.number())),
        ElfFault::NoMemory => FaultText::NoMemory,
    }
}

/// A bound as lines show it.
pub fn shown_of(bound: Amount) -> Shown
    ensures { result ≡ shown_of bound }
{
    match bound {
        Amount::Finite(bytes) => Shown::Number(bytes),
        Amount::Infinite => Shown::Infinite,
        Amount::Wide => Shown::Wide,
    }
}

// Puts the line of a fault that names this file, or none.
fn put_text<K: Sink>(log: &mut K, file: &str, text: FaultText) -> Result<(), SinkFault>
    ensures { PutsOn K.view log.old log.new (named_line file.now text) result }
{
    put_fault(log, file.as_bytes(), b"", &text)
}

fn put_words_fault<K: Sink>(
    log: &mut K,
    names: &FileNames<'_>,
    fault: WordsFault,
) -> Result<(), SinkFault>
    ensures { PutsOn K.view log.old log.new (line_of names.now (Status.Words fault)) result }
{
    match fault {
        WordsFault::Usage => put_text(log, "", FaultText::Usage),
        WordsFault::SameName => put_text(log, names.output, FaultText::SameName),
        WordsFault::ArgCount { expected, given } => {
            put_arg_count(log, u64::from(expected), given as u64)
        }
        WordsFault::ArgRange(argument) => put_arg_range(log, argument as u64),
    }
}

fn put_source_fault<K: Sink>(
    log: &mut K,
    names: &FileNames<'_>,
    fault: SourceFault,
) -> Result<(), SinkFault>
    ensures { PutsOn K.view log.old log.new (line_of names.now (Status.Source fault)) result }
{
    match fault {
        SourceFault::TooLong(kind) => put_text(log, file_name(names, kind), FaultText::TooLong),
        SourceFault::Lex(fault, pos) => put_text(log, names.source, lex_text(fault, pos)),
        SourceFault::Syntax(fault, place) => put_text(log, names.source, syntax_text(fault, place)),
        SourceFault::Typing(fault, place) => put_text(log, names.source, typing_text(fault, place)),
    }
}

fn put_proofs_fault<K: Sink>(
    log: &mut K,
    names: &FileNames<'_>,
    fault: &ProofFault,
) -> Result<(), SinkFault>
    ensures { PutsOn K.view log.old log.new (line_of names.now (Status.Proof fault.now)) result }
{
    match fault {
        ProofFault::Text(fault, pos) => put_text(
            log,
            names.derivation,
            proof_file_text(*fault, *pos),
        ),
        ProofFault::Cycle(functions) => put_cycle(log, functions),
        ProofFault::NoEntry(name) => put_fault(
            log,
            names.derivation.as_bytes(),
            name.bytes(),
            &FaultText::NoEntry,
        ),
        ProofFault::Order(name) => put_fault(
            log,
            names.derivation.as_bytes(),
            name.bytes(),
            &FaultText::Order,
        ),
        ProofFault::Entry(function, spot, text) => put_proof_fault(
            log,
            names.derivation.as_bytes(),
            function.bytes(),
            spot,
            text,
        ),
    }
}

/// Puts the line of a fault; nothing at `Done` and `SinkFailed`.
pub fn put_status<K: Sink>(
    log: &mut K,
    names: &FileNames<'_>,
    status: &Status,
) -> Result<(), SinkFault>
    ensures { PutsOn K.view log.old log.new (line_of names.now status.now) result }
{
    match status {
        Status::Done => Ok(()),
        Status::Source(fault) => put_source_fault(log, names, *fault),
        Status::Proof(fault) => put_proofs_fault(log, names, fault),
        Status::Words(fault) => put_words_fault(log, names, *fault),
        Status::Missing(kind) => put_text(log, file_name(names, *kind), FaultText::Missing),
        Status::StoreFailed(kind) => put_text(log, file_name(names, *kind), FaultText::Failed),
        Status::Image(fault) => put_text(log, names.image, FaultText::Image(*fault)),
        Status::Elf(fault) => put_text(log, names.elf, elf_text(fault)),
        Status::Trapped { cause, pc } => put_text(log, "", FaultText::Trapped(*cause, *pc)),
        Status::StepLimit(steps) => put_text(log, "", FaultText::StepLimit(*steps)),
        Status::NoBound(bound) => put_text(log, "", FaultText::NoBound(shown_of(*bound))),
        Status::StackTooLarge(size) => put_text(log, "", FaultText::StackTooLarge(*size)),
        Status::SinkFailed => Ok(()),
        Status::NoMemory => put_text(log, "", FaultText::NoMemory),
    }
}
