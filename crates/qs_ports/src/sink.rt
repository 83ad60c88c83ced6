// Sinks for bytes.
ghost use Rattle.qs_ports.specs.SinkView.{SinkView, Puts, PutsAll};

use thiserror::Error;

/// The sink failed, and took nothing.
#[derive(Clone, Copy, Debug, Error)]
#[error("the sink failed")]
pub struct SinkFault;

/// What takes bytes: standard output, standard error, or a list of bytes in memory.
pub trait Sink {
    ghost view: { Self → SinkView };

    /// Appends the first bytes of the piece, at least one where it isn't empty, and answers how
    /// many. A fault comes only where the sink counted a failure in this call, and then nothing was
    /// appended.
    fn put(&mut self, piece: &[u8]) -> Result<usize, SinkFault>
        ensures { Puts (view self.old) (view self.new) piece.now result };
}

/// Appends all of the bytes. A fault comes only where the sink counted a failure in this call; some
/// first bytes were appended then, and the sink isn't called after it failed.
pub fn put_all<K: Sink>(sink: &mut K, bytes: &[u8]) -> Result<(), SinkFault>
    ensures { PutsAll (K.view sink.old) (K.view sink.new) bytes.now result }
{
    let mut done = 0;
    while done < bytes.len() {
        done += sink.put(&bytes[done..])?;
    }
    Ok(())
}
