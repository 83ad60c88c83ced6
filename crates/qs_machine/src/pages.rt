// Bytes in pages.
ghost use Rattle.std.specs.Prelude.{◌≡◌, ◌+◌, ◌*◌, ◌%◌, ◌≤◌, length, replicate, vec_capacity, IfOk};
ghost use Rattle.qs_machine.specs.State.{stack_top, is_inside};
ghost use Rattle.qs_machine.specs.Step.{store_width};
ghost use Rattle.qs_machine.specs.Pages.{page_bytes, page_of, ArePages, IsInPage};

use crate::regions::put;
use qs_base::NoMemory;
use qs_isa::StoreKind;
use std::alloc::Global;

/// How many bytes a page has.
const PAGE_BYTES: usize = 4096;

/// The bytes from one address to another, in pages that are numbered by address divided by 4,096.
///
/// A page that was never written costs an item of the table: page 0 of the bytes, which holds
/// zeros, stands for all of them. The first write gives it a page of its own behind the others, for
/// which the bytes have room from the beginning.
#[derive(Drop)]
pub struct Pages {
    /// The address of the first byte.
    pub start: u32,
    /// The address behind the last byte.
    pub end: u32,
    /// For each page the number of the one among the bytes that holds it.
    pub table: Vec<u32>,
    pub bytes: Vec<u8>,
    ghost pages: { ArePages start end table.items bytes.items },
    ghost room: { (1 + length table.items) * page_bytes ≤ vec_capacity bytes },
}

/// The place of a byte in the bytes, by the number of its page there and its address.
fn place_in(page: u32, address: u32) -> usize
    ensures { result ≡ page * page_bytes + address % page_bytes }
{
    page as usize * PAGE_BYTES + address as usize % PAGE_BYTES
}

// A page of zeros, with room for so many bytes.
fn page_of_zeros(alloc: Global, room: usize) -> Result<Vec<u8>, NoMemory>
    requires { page_bytes ≤ room }
    ensures items { IfOk result (λ bytes. bytes.items ≡ replicate page_bytes 0) }
    ensures room { IfOk result (λ bytes. room ≤ vec_capacity bytes) }
{
    let mut bytes = Vec::with_capacity(alloc, room)?;
    bytes.resize(PAGE_BYTES, 0)?;
    Ok(bytes)
}

// A table of so many pages that were never written.
fn table_of_zeros(alloc: Global, count: usize) -> Result<Vec<u32>, NoMemory>
    ensures { IfOk result (λ table. table.items ≡ replicate count 0) }
{
    Ok(vec![in alloc; 0; count]?)
}

impl Pages {
    ghost use Rattle.std.specs.Prelude.{◌≡◌, ◌≢◌, ◌+◌, ◌%◌, ◌<◌, ◌≤◌, ℕ, length, slice_index, IfOk, IsTrue};
    ghost use Rattle.qs_machine.specs.Hart.{byte_of, bytes_of, lies_in, StoresIn, AreZeros, SameBytes};

    /// Zeros from one address to another. Takes all memory that writes to them will ask for.
    pub fn zeros(alloc: Global, start: u32, end: u32) -> Result<Pages, NoMemory>
        requires ordered { start ≤ end }
        requires fits { end ≤ stack_top }
        ensures { IfOk result (AreZeros start end) }
    {
        let count = (end as usize).div_ceil(PAGE_BYTES) - start as usize / PAGE_BYTES;
        let bytes = page_of_zeros(alloc, (1 + count) * PAGE_BYTES)?;
        let table = table_of_zeros(alloc, count)?;
        Ok(Pages {
            start,
            end,
            table,
            bytes,
        })
    }

    /// Whether they hold the bytes of an access.
    pub fn hold(&self, address: u32, width: u32) -> bool
        ensures { result ≡ lies_in self.now address width }
    {
        self.start <= address && address as usize + width as usize <= self.end as usize
    }

    /// The bytes of an access.
    pub fn read(&self, address: u32, width: u32) -> &[u8]
        requires some { 0 < width }
        requires inside { IsTrue (lies_in self.now address width) }
        requires in_page { IsInPage address width }
        ensures { result.now ≡ bytes_of self.now address width }
    {
        let place = place_in(self.table[self.page(address)], address);
        &self.bytes[place..place + width as usize]
    }

    // The place in the table of the page of an address.
    fn page(&self, address: u32) -> usize
        requires { IsTrue (lies_in self.now address 1) }
        ensures place { result ≡ page_of self.now.start address }
        ensures there { result < length self.now.table.items }
    {
        address as usize / PAGE_BYTES - self.start as usize / PAGE_BYTES
    }

    // Gives a page that was never written one of its own, and answers its number.
    #[cold]
    #[inline(never)]
    fn touch(&mut self, page: usize) -> u32
        requires there { page < length self.old.table.items }
        requires untouched { slice_index self.old.table.items page ≡ 0 }
        ensures same { SameBytes self.old self.new }
        ensures number { result ≡ slice_index self.new.table.items page }
        ensures touched { result ≢ 0 }
    {
        let number = (self.bytes.len() / PAGE_BYTES) as u32;
        let count = self.bytes.len() + PAGE_BYTES;
        self.bytes.resize(count, 0).unwrap();
        self.table[page] = number;
        number
    }

    // The number of a page that is going to be written.
    fn touched(&mut self, page: usize) -> u32
        requires { page < length self.old.table.items }
        ensures same { SameBytes self.old self.new }
        ensures number { result ≡ slice_index self.new.table.items page }
        ensures touched { result ≢ 0 }
    {
        let number = self.table[page];
        if number == 0 {
            self.touch(page)
        } else {
            number
        }
    }

    /// Stores the low bytes of a word.
    pub fn write(&mut self, kind: StoreKind, address: u32, value: u32)
        requires inside { IsTrue (lies_in self.old address (store_width kind)) }
        requires in_page { IsInPage address (store_width kind) }
        ensures { StoresIn self.old self.new kind address value }
    {
        let page = self.page(address);
        let number = self.touched(page);
        put(&mut self.bytes, place_in(number, address), kind, value);
    }
}
