// The tokens of a text as the grammar sees them.
ghost use Rattle.std.specs.Prelude.{◌≡◌, ◌≤◌, true, IfOk, length};
ghost use Rattle.std.specs.List.{list_all};
ghost use Rattle.qs_lexer.specs.Terminals.{terminal, terminal_of, terminals};
ghost use Rattle.qs_lexer.specs.Literals.{elements};
ghost use Rattle.qs_lexer.specs.Tokens.{Tokens};
ghost use Rattle.qs_syntax_vocabulary.specs.WellFormed.{is_well_formed};

use crate::literals::text_bytes;
use qs_base::{Name, NoMemory};
use qs_syntax_vocabulary::{Terminal, Text, Token, TokenKind};
use std::alloc::Global;

/// The text that a literal stands for.
fn text_of(alloc: Global, literal: &[u8]) -> Result<Text, NoMemory>
    ensures { IfOk result (λ text. text ≡ elements literal.now) }
{
    let mut bytes = Vec::new(alloc);
    text_bytes(literal, &mut bytes)?;
    Ok(Text::new(bytes))
}

fn terminal_of(alloc: Global, at: u32, bytes: &[u8], kind: TokenKind) -> Result<Terminal, NoMemory>
    ensures { IfOk result (λ terminal. terminal ≡ terminal_of at bytes.now kind) }
{
    match kind {
        TokenKind::Name => Ok(Terminal::Name(at, Name::new(alloc, bytes)?)),
        TokenKind::Keyword(keyword) => Ok(Terminal::Keyword(at, keyword)),
        TokenKind::Number(value, is_unsigned) => Ok(Terminal::Constant {
            at,
            value,
            is_unsigned,
        }),
        TokenKind::Character(value) => Ok(Terminal::Constant {
            at,
            value: value as u32,
            is_unsigned: false,
        }),
        TokenKind::Text => Ok(Terminal::Text(at, text_of(alloc, bytes)?)),
        TokenKind::Punctuator(punctuator) => Ok(Terminal::Punctuator(at, punctuator)),
    }
}

fn terminal(alloc: Global, text: &[u8], at: usize, token: Token) -> Result<Terminal, NoMemory>
    requires numbered { at ≤ token.start }
    requires ordered { token.start ≤ token.end }
    requires within { token.end ≤ length text.now }
    ensures { IfOk result (λ l. l ≡ terminal text.now at token) }
{
    let (_, behind) = text.split_at(token.start as usize);
    let (bytes, _) = behind.split_at((token.end - token.start) as usize);
    terminal_of(alloc, at as u32, bytes, token.kind)
}

/// The tokens of a text as the grammar sees them, in order, with their numbers from 0. `tokens` are
/// those that the lexer gives for the text.
pub fn terminals(alloc: Global, text: &[u8], tokens: &[Token]) -> Result<Vec<Terminal>, NoMemory>
    requires tokens_of { Tokens text.now tokens.now }
    ensures terminals { IfOk result (λ list. list.items ≡ terminals text.now 0 tokens.now) }
    ensures are_well_formed { IfOk result (λ list. list_all is_well_formed list.items ≡ true) }
{
    let mut list = Vec::new(alloc);
    for (at, token) in tokens.iter().enumerate() {
        list.push(terminal(alloc, text, at, *token)?)?;
    }
    Ok(list)
}
