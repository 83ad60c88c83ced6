// A sink over a writer of the system.
use crate::system::again::write_some;
use crate::{Sink, SinkFault};
use std::io::Write;

/// A sink over any writer, such as standard output or standard error. It tells nothing of what was
/// written, but what the writer is known to hold grows by exactly the bytes that `put` answers. The
/// writer is to hand on its bytes at once: what a buffer loses when it is flushed isn't seen.
#[derive(Drop)]
pub struct StdSink<W: Write + Drop> {
    writer: W,
    faults: u64,
    failed: bool,
}

impl<W: Write + Drop> StdSink<W> {
    ghost use Rattle.std.specs.Prelude.{◌≡◌, false};
    ghost use Rattle.qs_ports.specs.System.{silent_sink, std_sink_of as view_of, contents_of};

    /// A sink over this writer, which hasn't failed.
    pub fn new(writer: W) -> StdSink<W>
        ensures fresh { view_of result ≡ silent_sink 0 false }
        ensures writer { contents_of W.contents result ≡ W.contents writer }
    {
        StdSink {
            writer,
            faults: 0,
            failed: false,
        }
    }
}

impl<W: Write + Drop> Sink for StdSink<W> {
    ghost use Rattle.std.specs.Prelude.{◌≡◌};
    ghost use Rattle.qs_ports.specs.SinkView.{Puts};
    ghost use Rattle.qs_ports.specs.System.{std_sink_of as view_of, WritesTo, after_silent_put};

    ghost view = { view_of };

    fn put(&mut self, piece: &[u8]) -> Result<usize, SinkFault>
        ensures puts { Puts (view_of self.old) (view_of self.new) piece.now result }
        ensures changes { view_of self.new ≡ after_silent_put (view_of self.old) result }
        ensures bytes { WritesTo W.contents self.old self.new piece.now result }
    {
        match write_some(&mut self.writer, piece) {
            Ok(count) => {
                self.failed = false;
                Ok(count)
            }
            Err(_) => {
                self.failed = true;
                self.faults = self.faults.saturating_add(1);
                Err(SinkFault)
            }
        }
    }
}
