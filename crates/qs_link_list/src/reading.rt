// A list of files is read byte by byte.
ghost use Rattle.std.specs.Prelude.{◌≡◌, ◌<◌, ◌^◌, ◌++◌, ◌∷◌, [], true, ℕ, IfOk, List, length};
ghost use Rattle.std.specs.Prelude.{string_bytes};
ghost use Rattle.qs_link_list.specs.Lines.{Line, is_graphic};
ghost use Rattle.qs_link_list.specs.Lists.{IsBadAt, IsList};
ghost use Rattle.qs_link_list.specs.Reading.{scanned};
ghost use Rattle.qs_link_list.specs.Results.{EndsLine, Finishes, Follows, Gives, GivesFault};
ghost use Rattle.qs_link_list.specs.Results.{GivesLines, Says};

use crate::entry::Entry;
use crate::fault::ListFault;
use std::alloc::{AllocError, Global};

/// The most bytes of a list: 1,048,576 (1 MiB).
pub const LIST_LIMIT: usize = 1_048_576;

/// The most lines.
const LINE_LIMIT: usize = 64;

/// Where a line is read.
#[derive(Drop)]
enum Place {
    /// Nothing of it yet.
    Line,
    /// So much of its source.
    Source(String),
    /// Its source, and so much of its proof file's name.
    Proof(String, String),
}

/// The lines that are whole, and where the next one is read.
#[derive(Drop)]
struct Reader {
    entries: Vec<Entry>,
    place: Place,
}

fn is_graphic(byte: u8) -> bool
    ensures { result ≡ is_graphic byte }
{
    33 <= byte && byte <= 126
}

/// The text with one more byte, which can be seen.
fn with_byte(text: String, byte: u8) -> Result<String, AllocError>
    requires { is_graphic byte ≡ true }
    ensures { IfOk result (λ to. string_bytes to ≡ string_bytes text ++ byte ∷ []) }
{
    let mut text = text;
    text.push(char::from(byte))?;
    Ok(text)
}

/// Behind the first byte of a line.
fn begun(alloc: Global, entries: Vec<Entry>, byte: u8) -> Result<Option<Reader>, AllocError>
    ensures { IfOk result (Follows entries.items Place.Line byte) }
{
    if entries.len() < LINE_LIMIT && is_graphic(byte) {
        let source = with_byte(String::new(alloc), byte)?;
        Ok(Some(Reader {
            entries,
            place: Place::Source(source),
        }))
    } else {
        Ok(None)
    }
}

/// Behind the end of a line.
fn ended(
    entries: Vec<Entry>,
    source: String,
    proof: Option<String>,
) -> Result<Option<Reader>, AllocError>
    ensures { IfOk result (EndsLine entries.items source proof) }
{
    let mut entries = entries;
    entries.push(Entry { source, proof })?;
    Ok(Some(Reader {
        entries,
        place: Place::Line,
    }))
}

/// Behind one more byte of a source's name, or behind it.
fn named(
    alloc: Global,
    entries: Vec<Entry>,
    source: String,
    byte: u8,
) -> Result<Option<Reader>, AllocError>
    ensures { IfOk result (Follows entries.items (Place.Source source) byte) }
{
    if is_graphic(byte) {
        let source = with_byte(source, byte)?;
        Ok(Some(Reader {
            entries,
            place: Place::Source(source),
        }))
    } else if byte == b' ' {
        Ok(Some(Reader {
            entries,
            place: Place::Proof(source, String::new(alloc)),
        }))
    } else if byte == b'\n' {
        ended(entries, source, None)
    } else {
        Ok(None)
    }
}

/// Behind one more byte of a proof file's name, or behind it.
fn proved(
    entries: Vec<Entry>,
    source: String,
    proof: String,
    byte: u8,
) -> Result<Option<Reader>, AllocError>
    ensures { IfOk result (Follows entries.items (Place.Proof source proof) byte) }
{
    if is_graphic(byte) {
        let proof = with_byte(proof, byte)?;
        Ok(Some(Reader {
            entries,
            place: Place::Proof(source, proof),
        }))
    } else if byte == b'\n' && !proof.is_empty() {
        ended(entries, source, Some(proof))
    } else {
        Ok(None)
    }
}

/// Behind one more byte; none where it fits nothing.
fn next(alloc: Global, reader: Reader, byte: u8) -> Result<Option<Reader>, AllocError>
    ensures { IfOk result (Follows reader.entries.items reader.place byte) }
{
    let Reader { entries, place } = reader;
    match place {
        Place::Line => begun(alloc, entries, byte),
        Place::Source(source) => named(alloc, entries, source, byte),
        Place::Proof(source, proof) => proved(entries, source, proof, byte),
    }
}

/// The lines, where all bytes are read: the last one is whole, and there is one.
fn lines(reader: Reader) -> Option<Vec<Entry>>
    ensures { Finishes reader.entries.items reader.place result }
{
    let Reader { entries, place } = reader;
    match place {
        Place::Line => {
            if entries.is_empty() {
                None
            } else {
                Some(entries)
            }
        }
        Place::Source(_) => None,
        Place::Proof(_, _) => None,
    }
}

/// The lines of the text, or the first byte that fits none.
fn read_all(alloc: Global, text: &[u8]) -> Result<Vec<Entry>, ListFault>
    requires { length text.now < 2 ^ 31 }
    ensures { Gives (scanned text.now) result }
{
    let mut reader = Reader {
        entries: Vec::new(alloc),
        place: Place::Line,
    };
    for (at, byte) in text.iter().enumerate() {
        reader = match next(alloc, reader, *byte)? {
            Some(reader) => reader,
            None => return Err(ListFault::BadByte(at as u32)),
        };
    }
    lines(reader).ok_or(ListFault::BadByte(text.len() as u32))
}

/// The lines of a list of files: each the name of a source, and behind one blank that of its proof
/// file, where it has one; names have bytes from 33 to 126, and each line ends with 0x0A. Or the
/// first byte with which the text begins no such list.

#[tactic(auto, using(crate::proofs::OneList::answer_laws))]
pub fn read(alloc: Global, text: &[u8]) -> Result<Vec<Entry>, ListFault>
    requires limit { length text.now < 2 ^ 31 }
    ensures says { Says text.now result }
    ensures lines_only { (lines : List Line) → IsList text.now lines → GivesLines lines result }
    ensures fault_only { (at : ℕ) → IsBadAt text.now at → GivesFault at result }
{
    read_all(alloc, text)
}
