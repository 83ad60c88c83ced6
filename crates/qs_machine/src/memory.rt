// The memory: the bytes of the code, the data and the stack.
ghost use Rattle.std.specs.Prelude.{◌≡◌, ◌+◌, ◌*◌, ◌%◌, ◌<◌, ◌≤◌, option_copied, length, IsTrue, false};
ghost use Rattle.qs_base.specs.Words.{sign_extend};
ghost use Rattle.qs_image.specs.Limits.{most_code_words, most_data_bytes};
ghost use Rattle.qs_machine.specs.Bytes.{loaded_from};
ghost use Rattle.qs_isa.specs.Addresses.{data_start};
ghost use Rattle.qs_machine.specs.Pages.{IsInPage};
ghost use Rattle.qs_machine.specs.State.{stack_base, stack_limit, stack_top};
ghost use Rattle.qs_machine.specs.Step.{load_width, store_width};

use crate::pages::Pages;
use crate::regions::place_in;
use byteorder::{ByteOrder, LittleEndian};
use qs_isa::{CODE_START, LoadKind, StoreKind};

/// The bytes of the code, of the data and of the stack.
#[derive(Drop)]
pub struct Memory {
    pub code: Vec<u8>,
    pub data: Pages,
    pub stack: Pages,
    ghost code_fits: { length code.items ≤ 4 * most_code_words },
    ghost data_begins: { data.start ≡ data_start },
    ghost data_fits: { data.end ≤ data_start + most_data_bytes },
    ghost stack_fits: { stack_base stack_limit ≤ stack.start },
    ghost stack_ends: { stack.end ≡ stack_top },
}

/// How many bytes a load reads.
pub fn load_width(kind: LoadKind) -> u32
    ensures { result ≡ load_width kind }
{
    match kind {
        LoadKind::Lb | LoadKind::Lbu => 1,
        LoadKind::Lh | LoadKind::Lhu => 2,
        LoadKind::Lw => 4,
    }
}

/// How many bytes a store writes.
pub fn store_width(kind: StoreKind) -> u32
    ensures { result ≡ store_width kind }
{
    match kind {
        StoreKind::Sb => 1,
        StoreKind::Sh => 2,
        StoreKind::Sw => 4,
    }
}

/// The word that a load makes of the bytes that it reads.
fn word_of(kind: LoadKind, bytes: &[u8]) -> u32
    requires { length bytes.now ≡ load_width kind }
    ensures { result ≡ loaded_from kind bytes.now }
{
    match kind {
        LoadKind::Lb => sign_extend_byte(bytes[0]),
        LoadKind::Lh => sign_extend_half(LittleEndian::read_u16(bytes)),
        LoadKind::Lw => LittleEndian::read_u32(bytes),
        LoadKind::Lbu => u32::from(bytes[0]),
        LoadKind::Lhu => u32::from(LittleEndian::read_u16(bytes)),
    }
}

fn sign_extend_byte(byte: u8) -> u32
    ensures { result ≡ sign_extend 8 byte }
{
    i32::from(byte.cast_signed()).cast_unsigned()
}

fn sign_extend_half(half: u16) -> u32
    ensures { result ≡ sign_extend 16 half }
{
    i32::from(half.cast_signed()).cast_unsigned()
}

impl Memory {
    ghost use Rattle.qs_machine.specs.Hart.{can_write_in, bytes_read, word_read, Stores};

    /// The lowest address of the stack.
    pub fn stack_base(&self) -> u32
        ensures { result ≡ self.now.stack.start }
    {
        self.stack.start
    }

    // The bytes of an access that may be read. The regions have no byte in common, so their order
    // changes nothing: most accesses are to the stack.
    fn readable(&self, address: u32, width: u32) -> Option<&[u8]>
        requires some { 0 < width }
        requires in_page { IsInPage address width }
        ensures { option_copied result ≡ bytes_read self.now address width }
    {
        if self.stack.hold(address, width) {
            return Some(self.stack.read(address, width));
        }
        if self.data.hold(address, width) {
            return Some(self.data.read(address, width));
        }
        let at = place_in(CODE_START, self.code.len(), address, width)?;
        Some(&self.code[at..at + width as usize])
    }

    /// The word that a load reads; None where it does not lie whole in the code, the data or the
    /// stack.
    pub fn load(&self, kind: LoadKind, address: u32) -> Option<u32>
        requires { address % load_width kind ≡ 0 }
        ensures { result ≡ word_read self.now kind address }
    {
        let bytes = self.readable(address, load_width(kind))?;
        Some(word_of(kind, bytes))
    }

    /// Stores the low bytes of a word; whether they lie whole in the data or the stack.
    #[tactic(auto, using(crate::proofs::Memories::stores_in_page))]
    pub fn store(&mut self, kind: StoreKind, address: u32, value: u32) -> bool
        requires { address % store_width kind ≡ 0 }
        ensures done { result ≡ can_write_in self.old address (store_width kind) }
        ensures stored { IsTrue result → Stores self.old self.new kind address value }
        ensures refused { result ≡ false → self.new ≡ self.old }
        ensures code { self.new.code.items ≡ self.old.code.items }
        ensures data_end { self.new.data.end ≡ self.old.data.end }
        ensures stack_start { self.new.stack.start ≡ self.old.stack.start }
    {
        let width = store_width(kind);
        if self.stack.hold(address, width) {
            self.stack.write(kind, address, value);
            return true;
        }
        if self.data.hold(address, width) {
            self.data.write(kind, address, value);
            return true;
        }
        false
    }
}
