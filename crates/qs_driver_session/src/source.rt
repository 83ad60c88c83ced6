// A source that a command reads: its text, or why it is refused.
ghost use Rattle.std.specs.Prelude.{◌≡◌, ◌≤◌, ◌<◌, ◌^◌, length, Some};
ghost use Rattle.qs_syntax.specs.Nodes.{unit_count};
ghost use Rattle.qs_syntax.specs.UnitTrees.{unit_tree};
ghost use Rattle.qs_lexer.specs.Results.{SaysFault};
ghost use Rattle.qs_lexer.specs.Tokens.{Tokens};
ghost use Rattle.qs_lexer.specs.Terminals.{terminals};
ghost use Rattle.qs_parser.specs.Answers.{Answers, ReadsAs};
ghost use Rattle.qs_typing_findings.specs.Refusals.{IsCause, IsTold};
ghost use Rattle.qs_typing_findings.specs.TypedOf.{typed_tree};
ghost use Rattle.qs_driver_steps.specs.Runs.{TakesAll};
ghost use Rattle.qs_driver_session.specs.Limits.{source_limit};
ghost use Rattle.qs_driver_session.specs.Origin.{origin};
ghost use Rattle.qs_driver_session.specs.Source.{byte_of, node_of, number_of, IsNodeStart, IsPlaceOf};
ghost use Rattle.qs_driver_session.specs.Source.{IsTokenPlace, ReadsUnit, RefusesText, TypesText};

use crate::files::read_file;
use crate::limits::SOURCE_LIMIT;
use crate::{FileKind, SourceFault, Status, TokenPlace};
use qs_base::{Pos, position};
use qs_lexer::{LexFault, tokens};
use qs_parser::{SyntaxFault, unit};
use qs_ports::Store;
use qs_syntax::Unit;
use qs_syntax_vocabulary::Token;
use qs_typing::check;
use qs_typing_findings::{TypeFault, TypedUnit};
use std::alloc::Global;

/// The place of the byte `at`, or of the end where the text has no such byte.
pub fn place(text: &[u8], at: usize) -> Pos
    requires { length text.now < 2 ^ 31 }
    ensures { IsPlaceOf text.now at result }
{
    position(text, at.min(text.len()))
}

/// The byte at which a lexical fault begins.
fn byte_of(fault: LexFault) -> Option<u32>
    ensures { result ≡ byte_of fault }
{
    match fault {
        LexFault::NoMemory => None,
        LexFault::BadByte(at) => Some(at),
        LexFault::OpenComment(at) => Some(at),
        LexFault::BadLiteral(at) => Some(at),
        LexFault::WideLiteral(at) => Some(at),
        LexFault::Directive(at) => Some(at),
        LexFault::OpenText(at) => Some(at),
    }
}

/// The status of a text with this lexical fault.
fn lexical(text: &[u8], fault: LexFault) -> Status
    requires short { length text.now < 2 ^ 31 }
    requires says { SaysFault text.now fault }
    ensures { RefusesText text.now result }
{
    match byte_of(fault) {
        Some(at) => Status::Source(SourceFault::Lex(fault, place(text, at as usize))),
        None => Status::NoMemory,
    }
}

/// The number of the token that a syntax fault names.
fn number_of(fault: SyntaxFault) -> Option<u32>
    ensures { result ≡ number_of fault }
{
    match fault {
        SyntaxFault::NoMemory => None,
        SyntaxFault::Unexpected(number) => Some(number),
        SyntaxFault::TooDeep(number) => Some(number),
    }
}

/// The place of the token with this number, or of the end where the number is the count of all
/// tokens.
fn token_place(text: &[u8], tokens: &[Token], number: u32) -> TokenPlace
    requires short { length text.now < 2 ^ 31 }
    requires within { number ≤ length tokens.now }
    ensures { IsTokenPlace text.now tokens.now number result }
{
    match tokens.get(number as usize) {
        Some(token) => TokenPlace::At(place(text, token.start as usize)),
        None => TokenPlace::End(place(text, text.len())),
    }
}

/// The status of a text whose tokens have this syntax fault.
fn syntactic(text: &[u8], tokens: &[Token], fault: SyntaxFault) -> Status
    requires short { length text.now < 2 ^ 31 }
    requires tokens { Tokens text.now tokens.now }
    requires says { Answers (terminals text.now 0 tokens.now) (Err fault) }
    ensures { RefusesText text.now result }
{
    match number_of(fault) {
        Some(number) => Status::Source(SourceFault::Syntax(
            fault,
            token_place(text, tokens, number),
        )),
        None => Status::NoMemory,
    }
}

/// The place of the node with this number: where its token starts.
fn node_place(text: &[u8], tokens: &[Token], unit: &Unit, node: u32) -> Pos
    requires short { length text.now < 2 ^ 31 }
    requires reads { ReadsAs (terminals text.now 0 tokens.now) (unit_tree unit.now) }
    requires there { node < unit_count (unit_tree unit.now) }
    ensures { IsNodeStart text.now tokens.now (unit_tree unit.now) node result }
{
    let token = tokens[unit.token_of(node) as usize];
    place(text, token.start as usize)
}

/// The status of a text that is this unit, where its first type fault names this node.
fn ill_typed_at(text: &[u8], tokens: &[Token], unit: &Unit, fault: TypeFault, node: u32) -> Status
    requires short { length text.now < 2 ^ 31 }
    requires tokens { Tokens text.now tokens.now }
    requires reads { ReadsAs (terminals text.now 0 tokens.now) (unit_tree unit.now) }
    requires cause { IsCause (unit_tree unit.now) fault }
    requires names { node_of fault ≡ Some node }
    ensures { RefusesText text.now result }
{
    let pos = node_place(text, tokens, unit, node);
    Status::Source(SourceFault::Typing(fault, Some(pos)))
}

/// The status of a text that is this unit and has this type fault.
fn ill_typed(text: &[u8], tokens: &[Token], unit: &Unit, fault: TypeFault) -> Status
    requires short { length text.now < 2 ^ 31 }
    requires tokens { Tokens text.now tokens.now }
    requires reads { ReadsAs (terminals text.now 0 tokens.now) (unit_tree unit.now) }
    requires told { IsTold (unit_tree unit.now) fault }
    ensures { RefusesText text.now result }
{
    match fault {
        TypeFault::Rule(node, _) => ill_typed_at(text, tokens, unit, fault, node),
        TypeFault::Limit(_, node) => ill_typed_at(text, tokens, unit, fault, node),
        TypeFault::NoMain => Status::Source(SourceFault::Typing(fault, None)),
        TypeFault::Undefined(node) => ill_typed_at(text, tokens, unit, fault, node),
        TypeFault::NoMemory => Status::NoMemory,
    }
}

/// The unit that a text is read as, with its types.
fn typed_unit(
    alloc: Global,
    text: &[u8],
    tokens: &[Token],
    unit: &Unit,
) -> Result<TypedUnit, Status>
    requires short { length text.now < 2 ^ 31 }
    requires tokens { Tokens text.now tokens.now }
    requires reads { ReadsAs (terminals text.now 0 tokens.now) (unit_tree unit.now) }
    ensures { TypesText text.now result }
{
    match check(alloc, unit) {
        Ok(typed) => Ok(typed),
        Err(fault) => Err(ill_typed(text, tokens, unit, fault)),
    }
}

/// The unit of a text, with its types: the text is lexed, parsed and typed. Or the status at which
/// it is refused: its first lexical fault, else that of syntax, else that of types; or no memory was
/// found.
pub fn typed_text(alloc: Global, text: &[u8]) -> Result<TypedUnit, Status>
    requires limit { length text.now ≤ source_limit }
    ensures { TypesText text.now result }
{
    let tokens = match tokens(alloc, text) {
        Ok(tokens) => tokens,
        Err(fault) => return Err(lexical(text, fault)),
    };
    match unit(alloc, text, &tokens) {
        Ok(unit) => typed_unit(alloc, text, &tokens, &unit),
        Err(fault) => Err(syntactic(text, &tokens, fault)),
    }
}

/// The unit of a source, with its types. Or the status at which its file can't be read, or its text
/// is refused.
pub fn read_unit<S: Store>(alloc: Global, store: &mut S, name: &str) -> Result<TypedUnit, Status>
    ensures reads { ReadsUnit (S.view store.old) (S.view store.new) name.now result }
    ensures takes { TakesAll (origin name.now) typed_tree (S.view store.old) (S.view store.new) result }
{
    let text = read_file(alloc, store, name, FileKind::Source, SOURCE_LIMIT)?;
    let typed = typed_text(alloc, &text)?;
    Ok(typed)
}
