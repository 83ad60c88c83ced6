// The nodes of a whole text.
ghost use Rattle.std.specs.Prelude.{◌+◌, ◌<◌, ◌^◌, length};
ghost use Rattle.qs_sexpr.specs.Trees.{Sexps};
ghost use Rattle.qs_sexpr.specs.Reading.{Fault, Reading};
ghost use Rattle.qs_sexpr.specs.Results.{Gives, GivesFault, GivesNodes, Says, nodes_in};
ghost use Rattle.qs_sexpr.specs.Scan.{scanned};
ghost use Rattle.qs_sexpr.specs.Readers.{Follows, IsReader};
ghost use Rattle.qs_sexpr.specs.declared.fault.SexprFault.{SexprFault};

use crate::fault::SexprFault;
use crate::node::{Item, Node};
use crate::pieces::{Piece, first_piece};
use crate::reader::Reader;
use std::alloc::Global;

/// How many lists may be open at once.
const NESTING: usize = 1024;

/// Reads what the rest of a text begins with; the answer is how many bytes it has.
fn step(reader: &mut Reader, at: u32, rest: &[u8]) -> Result<usize, SexprFault>
    requires reader { IsReader reader.old }
    requires small { at + length rest.now < 2 ^ 31 }
    requires some { 0 < length rest.now }
    ensures { Follows reader.old at rest.now result reader.new }
{
    match rest {
        [] => Err(SexprFault::Unbalanced(at)),
        [first, others @ ..] => match first_piece(*first, others, rest) {
            Piece::White(more) => Ok(more + 1),
            Piece::Open => {
                if reader.depth() >= NESTING {
                    return Err(SexprFault::TooDeep(at));
                }
                reader.begin(at)?;
                Ok(1)
            }
            Piece::Close => {
                if !reader.end() {
                    return Err(SexprFault::Unbalanced(at));
                }
                Ok(1)
            }
            Piece::Number(more, number) => {
                reader.put(at, Item::Number(number))?;
                Ok(more + 1)
            }
            Piece::Symbol(more) => {
                reader.put(at, Item::Symbol(more as u32 + 1))?;
                Ok(more + 1)
            }
            Piece::BadByte(more) => Err(SexprFault::BadByte(at + more as u32)),
            Piece::BadNumber => Err(SexprFault::BadNumber(at)),
        },
    }
}

fn read_all(alloc: Global, text: &[u8]) -> Result<Vec<Node>, SexprFault>
    requires { length text.now < 2 ^ 31 }
    ensures { Gives (nodes_in (scanned text.now)) result }
{
    let mut reader = Reader::new(alloc);
    let mut at: usize = 0;
    while at < text.len() {
        let (_, rest) = text.split_at(at);
        at += step(&mut reader, at as u32, rest)?;
    }
    if reader.depth() > 0 {
        return Err(SexprFault::Unbalanced(at as u32));
    }
    Ok(reader.nodes)
}

/// The nodes of the lists and atoms of a text of fewer than 2^31 bytes, or its first fault. Each
/// list stands before its parts. White space and comments stand between lists and atoms, and an
/// atom goes on as far as bytes of atoms do.
#[tactic(auto, using(crate::proofs::OneReading::answer_laws))]
pub fn read(alloc: Global, text: &[u8]) -> Result<Vec<Node>, SexprFault>
    requires limit { length text.now < 2 ^ 31 }
    ensures says { Says text.now result }
    ensures reading_only { (parts : Sexps) → Reading text.now parts → GivesNodes parts result }
    ensures fault_only { (fault : SexprFault) → Fault text.now fault → GivesFault fault result }
{
    read_all(alloc, text)
}
