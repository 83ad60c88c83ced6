// Calls of the system that are tried again where it was interrupted.
ghost use Rattle.std.specs.Prelude.{IfOk};
ghost use Rattle.std.specs.Io.{ReadsAtMost, WritesAtMost};
ghost use Rattle.std.specs.Io.KnownBytes.{ReadConsumes, WriteAppends};
ghost use Rattle.qs_ports.specs.SinkView.{IsProgress};

use std::io::{Error, ErrorKind, Read, Result, Write};

// How often a call is tried. `File::open` and `File::create` try again by themselves.
const TRIES: u32 = 1_000;

/// One call of `read` that wasn't interrupted. After so many that were, the error is `Interrupted`.
pub fn read_again<R: Read>(reader: &mut R, into: &mut [u8]) -> Result<usize>
    ensures bound { ReadsAtMost result into.new }
    ensures bytes { ReadConsumes (R.remaining reader.old) (R.remaining reader.new) result into.new }
{
    for _ in 0..TRIES {
        match reader.read(into) {
            Err(error) if error.kind() == ErrorKind::Interrupted => {}
            ended => return ended,
        }
    }
    Err(Error::from(ErrorKind::Interrupted))
}

// One call of `write` that wasn't interrupted. After so many that were, the error is `Interrupted`.
fn write_again<W: Write>(writer: &mut W, piece: &[u8]) -> Result<usize>
    ensures bound { WritesAtMost result piece.now }
    ensures bytes { WriteAppends (W.contents writer.old) (W.contents writer.new) result piece.now }
{
    for _ in 0..TRIES {
        match writer.write(piece) {
            Err(error) if error.kind() == ErrorKind::Interrupted => {}
            ended => return ended,
        }
    }
    Err(Error::from(ErrorKind::Interrupted))
}

/// Writes some of the bytes, where there are any; a write of none is an error.
pub fn write_some<W: Write>(writer: &mut W, piece: &[u8]) -> Result<usize>
    ensures progress { IfOk result (λ n. IsProgress n piece.now) }
    ensures bytes { WriteAppends (W.contents writer.old) (W.contents writer.new) result piece.now }
{
    let count = write_again(writer, piece)?;
    if count == 0 && !piece.is_empty() {
        return Err(Error::from(ErrorKind::WriteZero));
    }
    Ok(count)
}
