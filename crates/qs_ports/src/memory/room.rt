// Bytes over room that was reserved before.
ghost use Rattle.std.specs.Prelude.{◌+◌, ◌≤◌, vec_len, vec_capacity};

use qs_base::NoMemory;
use std::alloc::Global;

/// Bytes in memory. To add to them takes no memory: they lie in room that was reserved before.
/// Where that is too small, the bytes are `full`, and aren't told from then on.
#[derive(Drop)]
pub struct Room {
    pub bytes: Vec<u8>,
    pub spare: usize,
    pub full: bool,
    ghost has_room: { vec_len bytes + spare ≤ vec_capacity bytes },
}

impl Room {
    ghost use Rattle.std.specs.Prelude.{OnOk, OnErr, ◌≡◌, false, length, max};
    ghost use Rattle.qs_ports.specs.Memory.{IsNewSink};
    ghost use Rattle.qs_ports.specs.Room.{room_view, Takes, TellsOn};

    /// No bytes, and no room.
    pub fn new(alloc: Global) -> Room
        ensures { IsNewSink (room_view result 0 false) 0 }
    {
        Room {
            bytes: Vec::new(alloc),
            spare: 0,
            full: false,
        }
    }

    /// Has room for at least so many bytes more.
    pub fn reserve(&mut self, bytes: usize) -> Result<(), NoMemory>
        ensures bytes_stay { self.new.bytes.items ≡ self.old.bytes.items }
        ensures full_stays { self.new.full ≡ self.old.full }
        ensures reserved { OnOk result (self.new.spare ≡ max self.old.spare bytes) }
        ensures refused { OnErr result (self.new.spare ≡ self.old.spare) }
    {
        if self.spare < bytes {
            self.bytes.reserve_exact(bytes)?;
            self.spare = bytes;
        }
        Ok(())
    }

    /// Adds the piece, or is full from then on where there is no room for it.
    pub fn add(&mut self, piece: &[u8])
        ensures appends { Takes self.old self.new piece.now }
        ensures tells { TellsOn self.old self.new (length piece.now) }
    {
        if !self.full && piece.len() <= self.spare {
            self.spare -= piece.len();
            self.bytes.extend_from_slice(piece).unwrap();
        } else {
            self.full = true;
        }
    }
}
