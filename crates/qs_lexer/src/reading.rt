// The tokens of a whole text.
ghost use Rattle.std.specs.Prelude.{◌<◌, ◌≤◌, ◌^◌, length};
ghost use Rattle.qs_lexer.specs.Results.{GivesFault, GivesTokens, Says};
ghost use Rattle.qs_lexer.specs.Tokens.{EachFault, EachReading};

use crate::fault::LexFault;
use crate::pieces::Piece;
use crate::scan::next;
use qs_syntax_vocabulary::Token;
use std::alloc::Global;

/// The length of the longest text: 1,048,576 bytes (1 MiB).
pub const SOURCE_LIMIT: usize = 1_048_576;

fn read(alloc: Global, text: &[u8]) -> Result<Vec<Token>, LexFault>
    requires { length text.now < 2 ^ 31 }
    ensures { Says text.now result }
{
    let mut list = Vec::new(alloc);
    let mut fresh = true;
    let mut at = 0;
    while at < text.len() {
        let (_, rest) = text.split_at(at);
        match next(fresh, rest) {
            Piece::End => return Ok(list),
            Piece::White(n, still) => {
                at += n;
                fresh = still;
            }
            Piece::Token(n, kind) => {
                list.push(Token {
                    kind,
                    start: at as u32,
                    end: (at + n) as u32,
                })?;
                at += n;
                fresh = false;
            }
            Piece::Fault(kind) => return Err(kind.at(at as u32)),
        }
    }
    Ok(list)
}

/// The tokens of a text (C11 6.4), or its first fault. White space and comments stand between
/// tokens, and each token is the longest that can stand at its place.
#[tactic(auto, using(crate::proofs::OneReading::only_answer))]
pub fn tokens(alloc: Global, text: &[u8]) -> Result<Vec<Token>, LexFault>
    requires limit { length text.now ≤ SOURCE_LIMIT }
    ensures says { Says text.now result }
    ensures tokens_only { EachReading text.now (λ tokens. GivesTokens tokens result) }
    ensures fault_only { EachFault text.now (λ kind at. GivesFault kind at result) }
{
    read(alloc, text)
}
