// A sink in memory that never fails.
use crate::memory::room::Room;
use crate::{Sink, SinkFault};
use qs_base::NoMemory;
use std::alloc::Global;

/// A sink in memory that never fails. It tells what was written to it while the room that was
/// reserved is enough for that.
#[derive(Drop)]
pub struct CleanSink {
    room: Room,
}

impl CleanSink {
    ghost use Rattle.std.specs.Prelude.{IfOk, OnOk, OnErr, ◌≡◌};
    ghost use Rattle.qs_ports.specs.Memory.{IsNewSink, with_sink_room};
    ghost use Rattle.qs_ports.specs.CleanSink.{clean_sink_of as view_of};

    /// A sink that nothing was written to, without room.
    pub fn new(alloc: Global) -> Result<CleanSink, NoMemory>
        ensures { IfOk result (λ s. IsNewSink (view_of s) 0) }
    {
        Ok(CleanSink {
            room: Room::new(alloc),
        })
    }

    /// Has room for at least so many bytes beside those that were written. After `NoMemory` the
    /// room is as before.
    pub fn reserve(&mut self, bytes: usize) -> Result<(), NoMemory>
        ensures ok { OnOk result (view_of self.new ≡ with_sink_room (view_of self.old) bytes) }
        ensures err { OnErr result (view_of self.new ≡ view_of self.old) }
    {
        self.room.reserve(bytes)
    }

    /// The bytes that were written so far.
    pub fn written(&self) -> &[u8]
        ensures { result.now ≡ (view_of self.now).written }
    {
        &self.room.bytes
    }
}

impl Sink for CleanSink {
    ghost use Rattle.std.specs.Prelude.{◌≡◌, length};
    ghost use Rattle.qs_ports.specs.SinkView.{Puts};
    ghost use Rattle.qs_ports.specs.CleanSink.{clean_sink_of as view_of, TellsOn};

    ghost view = { view_of };

    fn put(&mut self, piece: &[u8]) -> Result<usize, SinkFault>
        ensures puts { Puts (view_of self.old) (view_of self.new) piece.now result }
        ensures whole { result ≡ Ok (length piece.now) }
        ensures tells { TellsOn self.old self.new (length piece.now) }
    {
        self.room.add(piece);
        Ok(piece.len())
    }
}
