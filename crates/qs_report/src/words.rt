// The words of lines.
ghost use Rattle.std.specs.Prelude.{◌≡◌};
ghost use Rattle.qs_report.specs.Words.{lex_word, proof_file_word, trap_word, limit_word};

use crate::ProofFileText;
use qs_lexer::FaultKind;
use qs_machine::Cause;
use qs_types::LimitKind;

/// What is wrong with the bytes of a source, in the words of its line.
pub fn lex_word(fault: FaultKind) -> &'static str
    ensures { result.now ≡ lex_word fault }
{
    match fault {
        FaultKind::BadByte => "bad byte",
        FaultKind::OpenComment => "open comment",
        FaultKind::BadLiteral => "bad literal",
        FaultKind::WideLiteral => "wide literal",
        FaultKind::Directive => "directive",
        FaultKind::OpenText => "open text",
    }
}

/// What is wrong with the text of a proof file, in the words of its line.
pub fn proof_file_word(fault: ProofFileText) -> &'static str
    ensures { result.now ≡ proof_file_word fault }
{
    match fault {
        ProofFileText::BadByte => "bad byte",
        ProofFileText::Unbalanced => "unbalanced",
        ProofFileText::UnknownForm => "unknown form",
        ProofFileText::BadNumber => "bad number",
        ProofFileText::TooDeep => "too deep",
        ProofFileText::Duplicate => "duplicate",
        ProofFileText::NoSuchFunction => "no such function",
    }
}

/// The cause of a trap, in the words of its line.
pub fn trap_word(cause: Cause) -> &'static str
    ensures { result.now ≡ trap_word cause }
{
    match cause {
        Cause::Overflow => "overflow",
        Cause::IllegalInstruction => "illegal",
        Cause::FetchOutside => "fetch",
        Cause::JumpMisaligned => "jump",
        Cause::LoadMisaligned => "load misaligned",
        Cause::LoadOutside => "load",
        Cause::StoreMisaligned => "store misaligned",
        Cause::StoreOutside => "store",
        Cause::UnknownCall => "call",
        Cause::Breakpoint => "break",
    }
}

/// Which limit of a source is passed, in the word of its line.
pub fn limit_word(kind: LimitKind) -> &'static str
    ensures { result.now ≡ limit_word kind }
{
    match kind {
        LimitKind::Nodes => "nodes",
        LimitKind::Functions => "functions",
        LimitKind::Parameters => "parameters",
        LimitKind::Globals => "globals",
        LimitKind::Locals => "locals",
    }
}
