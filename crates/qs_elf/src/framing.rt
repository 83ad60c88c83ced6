// The bytes of a file.
ghost use Rattle.std.specs.Prelude.{◌≡◌, ◌<◌, ◌^◌, ◌++◌, length, replicate, OnOk, IfOk};
ghost use Rattle.qs_image.specs.Image.{Writes, word_bytes};
ghost use Rattle.qs_elf.specs.Elf as spec;
ghost use Rattle.qs_elf.specs.Parts.{parts_tree};
ghost use Rattle.qs_elf.specs.Framing.{Appends, IsSmall, segment_tree};

use crate::layout::{HEAD_AT, NOTE_AT, PAGE, code_at, data_at, note_bytes};
use crate::parts::Parts;
use qs_base::NoMemory;
use qs_isa::{CODE_START, DATA_START};
use std::alloc::Global;

const IDENTIFICATION: [u8; 16] = [127, 69, 76, 70, 1, 1, 1, 0, 0, 0, 0, 0, 0, 0, 0, 0];

const EXECUTABLE: u16 = 2;

const RISC_V: u16 = 243;

const TO_LOAD: u32 = 1;

const NOTE: u32 = 4;

const MAY_RUN: u32 = 1;

const MAY_WRITE: u32 = 2;

const MAY_READ: u32 = 4;

// The header of a segment, whose addresses are the same, as are its bytes in the file and in memory.
#[derive(Clone, Copy)]
struct Segment {
    kind: u32,
    offset: usize,
    address: u32,
    size: usize,
    flags: u32,
    alignment: usize,
}

fn put_word(bytes: &mut Vec<u8>, word: u32) -> Result<(), NoMemory>
    ensures { OnOk result (Appends bytes.old.items bytes.new.items (word_bytes word)) }
{
    bytes.extend_from_slice(&word.to_le_bytes())?;
    Ok(())
}

fn put_half(bytes: &mut Vec<u8>, half: u16) -> Result<(), NoMemory>
    ensures { OnOk result (Appends bytes.old.items bytes.new.items (spec.half_bytes half)) }
{
    bytes.extend_from_slice(&half.to_le_bytes())?;
    Ok(())
}

fn put_words(bytes: &mut Vec<u8>, words: &[u32]) -> Result<(), NoMemory>
    ensures { OnOk result (Writes bytes.old.items bytes.new.items words.now) }
{
    for word in words {
        put_word(bytes, *word)?;
    }
    Ok(())
}

fn put_halves(bytes: &mut Vec<u8>, halves: &[u16]) -> Result<(), NoMemory>
    ensures { OnOk result (Appends bytes.old.items bytes.new.items (spec.halves_bytes halves.now)) }
{
    for half in halves {
        put_half(bytes, *half)?;
    }
    Ok(())
}

fn put_zeros(bytes: &mut Vec<u8>, count: usize) -> Result<(), NoMemory>
    ensures { OnOk result (Appends bytes.old.items bytes.new.items (replicate count 0)) }
{
    for _k in 0..count {
        bytes.push(0)?;
    }
    Ok(())
}

fn put_file_header(bytes: &mut Vec<u8>, entry: u32) -> Result<(), NoMemory>
    ensures { OnOk result (Appends bytes.old.items bytes.new.items (spec.file_header entry)) }
{
    bytes.extend_from_slice(&IDENTIFICATION)?;
    put_halves(bytes, &[EXECUTABLE, RISC_V])?;
    put_words(bytes, &[1, entry, 52, 0, 0])?;
    put_halves(bytes, &[52, 32, 3, 0, 0, 0])
}

fn put_segment(bytes: &mut Vec<u8>, s: Segment) -> Result<(), NoMemory>
    requires offset { s.offset < 2 ^ 32 }
    requires size { s.size < 2 ^ 32 }
    requires alignment { s.alignment < 2 ^ 32 }
    ensures { OnOk result (Writes bytes.old.items bytes.new.items (spec.segment_words (segment_tree s))) }
{
    let size = s.size as u32;
    put_words(
        bytes,
        &[
            s.kind,
            s.offset as u32,
            s.address,
            s.address,
            size,
            size,
            s.flags,
            s.alignment as u32,
        ],
    )
}

fn put_segments(bytes: &mut Vec<u8>, p: &Parts<'_>) -> Result<(), NoMemory>
    requires { IsSmall (parts_tree p.now) }
    ensures { OnOk result (Appends bytes.old.items bytes.new.items (spec.segments (length p.now.head.now) (length p.now.code.now) (length p.now.data_bytes.now))) }
{
    let code = Segment {
        kind: TO_LOAD,
        offset: code_at(p.head.len()),
        address: CODE_START,
        size: p.code.len(),
        flags: MAY_READ + MAY_RUN,
        alignment: PAGE,
    };
    put_segment(bytes, code)?;
    let data = Segment {
        kind: TO_LOAD,
        offset: data_at(p.head.len(), p.code.len()),
        address: DATA_START,
        size: p.data_bytes.len(),
        flags: MAY_READ + MAY_WRITE,
        alignment: PAGE,
    };
    put_segment(bytes, data)?;
    let note = Segment {
        kind: NOTE,
        offset: NOTE_AT,
        address: 0,
        size: note_bytes(p.head.len()),
        flags: MAY_READ,
        alignment: 4,
    };
    put_segment(bytes, note)
}

fn put_front(bytes: &mut Vec<u8>, p: &Parts<'_>) -> Result<(), NoMemory>
    requires { IsSmall (parts_tree p.now) }
    ensures { OnOk result (Appends bytes.old.items bytes.new.items (spec.front p.now.entry (length p.now.head.now) (length p.now.code.now) (length p.now.data_bytes.now))) }
{
    put_file_header(bytes, p.entry)?;
    put_segments(bytes, p)?;
    put_words(bytes, &[4, p.head.len() as u32, 1])?;
    bytes.extend_from_slice(b"QSC\0")?;
    Ok(())
}

/// The bytes of the file with these parts.
pub fn framed(alloc: Global, p: &Parts<'_>) -> Result<Vec<u8>, NoMemory>
    requires { IsSmall (parts_tree p.now) }
    ensures { IfOk result (λ bytes. bytes.items ≡ spec.elf_bytes (parts_tree p.now)) }
{
    let head = p.head.len();
    let code = p.code.len();
    let mut bytes = Vec::new(alloc);
    put_front(&mut bytes, p)?;
    bytes.extend_from_slice(p.head)?;
    put_zeros(&mut bytes, code_at(head) - (HEAD_AT + head))?;
    bytes.extend_from_slice(p.code)?;
    put_zeros(&mut bytes, data_at(head, code) - (code_at(head) + code))?;
    bytes.extend_from_slice(p.data_bytes)?;
    Ok(bytes)
}
