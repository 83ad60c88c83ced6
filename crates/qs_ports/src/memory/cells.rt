// Files in one list of bytes that only grows.
ghost use Rattle.std.specs.Prelude.{◌≡◌, ◌≤◌, ◌<◌, ◌+◌, IfOk, OnOk, OnErr, length, vec_len};

use crate::memory::span::Span;
use qs_base::NoMemory;
use std::alloc::Global;

/// What a file takes of the room beside its name and its content, in bytes: the one where it
/// starts.
pub const FILE_ROOM: usize = 1;

/// What part of a file a byte is.
#[derive(Clone, Copy)]
pub enum Part {
    /// The byte where it starts, in front of its name.
    Start,
    /// A byte of its name.
    Name,
    /// A byte of its content.
    Content,
}

const _: () = prove!(size_of::<Part>() == 1);

/// Files, one behind the other: of each a byte where it starts, its name and its content. Beside
/// each byte stands what part of a file it is, so that a cell takes two bytes of memory.
#[derive(Drop)]
pub struct Cells {
    pub bytes: Vec<u8>,
    pub parts: Vec<Part>,
    ghost same: { vec_len parts ≡ vec_len bytes },
}

impl Cells {
    ghost use Rattle.qs_ports.specs.Cells.{
      IsEmpty,
      HasSameCells,
      Starts,
      Extends,
      Adds,
      TakesRoom,
      room_of,
      spans_of,
    };
    ghost use Rattle.qs_ports.specs.Shelf.{IsWithin, find, name_at, content_at};
    ghost use Rattle.qs_ports.specs.StoreView.{file_room};

    /// No file, and no room.
    pub fn new(alloc: Global) -> Cells
        ensures { IsEmpty result }
    {
        Cells {
            bytes: Vec::new(alloc),
            parts: Vec::new(alloc),
        }
    }

    /// Has room for at least so many bytes more. After `NoMemory` it has at least the room that it
    /// had.
    pub fn reserve(&mut self, more: usize) -> Result<(), NoMemory>
        ensures cells { HasSameCells self.old self.new }
        ensures room { OnOk result (more ≤ room_of self.new) }
        ensures kept { room_of self.old ≤ room_of self.new }
    {
        self.bytes.reserve_exact(more)?;
        self.parts.reserve_exact(more)?;
        Ok(())
    }

    /// Starts a file of this name behind the others, and answers where it lies. It takes memory
    /// only where there is too little room.
    pub fn start(&mut self, name: &[u8]) -> Result<Span, NoMemory>
        ensures starts { IfOk result (λ file. Starts self.old self.new name.now file) }
        ensures full { OnErr result (room_of self.old < length name.now + file_room) }
        ensures room { OnOk result (TakesRoom self.old self.new (length name.now + file_room)) }
    {
        self.add(Part::Start, &[0])?;
        let start = self.bytes.len();
        self.add(Part::Name, name)?;
        let end = self.bytes.len();
        Ok(Span {
            name: start,
            content: end,
            end,
        })
    }

    /// Adds a piece to the content of the newest file. It takes memory only where there is too
    /// little room.
    pub fn extend(&mut self, piece: &[u8]) -> Result<(), NoMemory>
        ensures extends { OnOk result (Extends self.old self.new piece.now) }
        ensures full { OnErr result (room_of self.old < length piece.now) }
        ensures room { OnOk result (TakesRoom self.old self.new (length piece.now)) }
    {
        self.add(Part::Content, piece)
    }

    // Adds bytes that are all of one part.
    fn add(&mut self, part: Part, piece: &[u8]) -> Result<(), NoMemory>
        ensures adds { OnOk result (Adds self.old self.new part piece.now) }
        ensures full { OnErr result (room_of self.old < length piece.now) }
        ensures room { OnOk result (TakesRoom self.old self.new (length piece.now)) }
    {
        self.parts.reserve(piece.len())?;
        self.bytes.extend_from_slice(piece)?;
        let len = self.bytes.len();
        self.parts.resize(len, part).unwrap();
        Ok(())
    }

    /// The name of a file.
    pub fn name(&self, file: Span) -> &[u8]
        requires { IsWithin file (length self.now.bytes.items) }
        ensures { result.now ≡ name_at self.now.bytes.items file }
    {
        &self.bytes[file.name..file.content]
    }

    /// The content of a file.
    pub fn content(&self, file: Span) -> &[u8]
        requires { IsWithin file (length self.now.bytes.items) }
        ensures { result.now ≡ content_at self.now.bytes.items file }
    {
        &self.bytes[file.content..file.end]
    }

    /// The newest file of this name.
    pub fn find(&self, name: &[u8]) -> Option<Span>
        ensures { result ≡ find self.now.bytes.items (spans_of self.now.parts.items) name.now }
    {
        let mut content = self.parts.len();
        let mut end = self.parts.len();
        for place in (0..self.parts.len()).rev() {
            match self.parts[place] {
                Part::Content => content = place,
                Part::Name => {}
                Part::Start => {
                    let file = Span {
                        name: place + 1,
                        content,
                        end,
                    };
                    if self.name(file) == name {
                        return Some(file);
                    }
                    content = place;
                    end = place;
                }
            }
        }
        None
    }
}
