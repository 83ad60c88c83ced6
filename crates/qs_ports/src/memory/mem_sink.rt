// A sink in memory that fails at listed calls.
ghost use Rattle.std.specs.Prelude.{◌≤◌};

use crate::memory::room::Room;
use crate::{Sink, SinkFault};
use qs_base::NoMemory;
use std::alloc::Global;

/// A sink in memory that fails exactly at listed calls, and takes at most a chunk of bytes at each
/// other call. It tells what was written to it while its room is enough for that; a small room is
/// no failure.
#[derive(Drop)]
pub struct MemSink {
    room: Room,
    chunk: usize,
    failing: Vec<u64>,
    calls: u64,
    faults: u64,
    failed: bool,
    ghost some: { 1 ≤ chunk },
}

impl MemSink {
    ghost use Rattle.std.specs.Prelude.{IfOk, ◌≡◌};
    ghost use Rattle.qs_ports.specs.Memory.{IsNewSink};
    ghost use Rattle.qs_ports.specs.MemSink.{mem_sink_of as view_of, IsPlanned};

    /// A sink that nothing was written to, with `room` bytes. A call takes at most `chunk` bytes, 1
    /// or more. The calls of `put` whose numbers, from 0, are in `failing` fail.
    pub fn new(
        alloc: Global,
        chunk: usize,
        failing: Vec<u64>,
        room: usize,
    ) -> Result<MemSink, NoMemory>
        requires { 1 ≤ chunk }
        ensures fresh { IfOk result (λ s. IsNewSink (view_of s) room) }
        ensures planned { IfOk result (λ s. IsPlanned s chunk failing.items) }
    {
        let mut taken = Room::new(alloc);
        taken.reserve(room)?;
        Ok(MemSink {
            room: taken,
            chunk,
            failing,
            calls: 0,
            faults: 0,
            failed: false,
        })
    }

    /// The bytes that were written so far.
    pub fn written(&self) -> &[u8]
        ensures { result.now ≡ (view_of self.now).written }
    {
        &self.room.bytes
    }
}

impl Sink for MemSink {
    ghost use Rattle.std.specs.Prelude.{IsErr, IfOk, OnErr, ◌↔◌, ◌≡◌, min, length};
    ghost use Rattle.qs_ports.specs.SinkView.{Puts};
    ghost use Rattle.qs_ports.specs.Memory.{failed_sink};
    ghost use Rattle.qs_ports.specs.MemSink.{mem_sink_of as view_of, chunk_of, IsListed};
    ghost use Rattle.qs_ports.specs.MemSink.{CountsCall, TellsOn};

    ghost view = { view_of };

    fn put(&mut self, piece: &[u8]) -> Result<usize, SinkFault>
        ensures puts { Puts (view_of self.old) (view_of self.new) piece.now result }
        ensures fails { IsErr result ↔ IsListed self.old }
        ensures counts { CountsCall self.old self.new }
        ensures moves { IfOk result (λ n. n ≡ min (length piece.now) (chunk_of self.old)) }
        ensures tells { IfOk result (TellsOn self.old self.new) }
        ensures failed { OnErr result (view_of self.new ≡ failed_sink (view_of self.old)) }
    {
        let call = self.calls;
        self.calls = call.saturating_add(1);
        self.failed = self.failing.contains(&call);
        if self.failed {
            self.faults = self.faults.saturating_add(1);
            return Err(SinkFault);
        }
        let count = piece.len().min(self.chunk);
        self.room.add(&piece[..count]);
        Ok(count)
    }
}
