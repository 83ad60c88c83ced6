// Where things lie, and the bytes of a region.
ghost use Rattle.std.specs.Prelude.{◌≡◌, ◌+◌, ◌<◌, ◌≤◌, ◌^◌, length};
ghost use Rattle.qs_machine.specs.State.{place_in};
ghost use Rattle.qs_machine.specs.Step.{store_width};
ghost use Rattle.qs_machine.specs.Bytes.{put_bytes};

use byteorder::{ByteOrder, LittleEndian};
use qs_image::LARGEST_COST;
use qs_isa::StoreKind;

/// The address behind the stack's highest byte, where x2 stands at the start.
pub const STACK_TOP: u32 = 0x8000_0000;

/// The largest stack, in bytes: as large as what one call may cost.
pub const STACK_LIMIT: u64 = LARGEST_COST as u64;

/// The place in a region of an access that lies in it whole.
pub fn place_in(start: u32, count: usize, address: u32, width: u32) -> Option<usize>
    requires { count < 2 ^ 32 }
    ensures { result ≡ place_in start count address width }
{
    if start <= address && (address - start) as usize + width as usize <= count {
        Some((address - start) as usize)
    } else {
        None
    }
}

/// Writes the part of a word that a store stores, its lowest byte first.
pub fn put(bytes: &mut [u8], at: usize, kind: StoreKind, value: u32)
    requires { at + store_width kind ≤ length bytes.old }
    ensures { bytes.new ≡ put_bytes kind bytes.old at value }
{
    let place = &mut bytes[at..];
    match kind {
        StoreKind::Sb => place[0] = (value % (1 << 8)) as u8,
        StoreKind::Sh => LittleEndian::write_u16(place, (value % (1 << 16)) as u16),
        StoreKind::Sw => LittleEndian::write_u32(place, value),
    }
}
