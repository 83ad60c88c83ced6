// Words of four bytes, the lowest first.
ghost use Rattle.std.specs.Prelude.{◌≡◌, ◌≤◌, ◌+◌, ◌*◌, ◌++◌, length, OnOk};
ghost use Rattle.qs_image.specs.Image.{word_bytes};
ghost use Rattle.qs_image.specs.Bytes.{word, header_bytes, header_word};

use crate::fault::HeaderWord;
use byteorder::{ByteOrder, LittleEndian};
use qs_base::NoMemory;

/// Word number `w`, from 0.
#[tactic(auto, unfolding(crate::specs::Bytes::number))]
pub fn word(bytes: &[u8], w: usize) -> u32
    requires { 4 * w + 4 ≤ length bytes.now }
    ensures { result ≡ word w bytes.now }
{
    LittleEndian::read_u32(&bytes[4 * w..])
}

/// A word of the header by its name.
pub fn header_word(bytes: &[u8], name: HeaderWord) -> u32
    requires { header_bytes ≤ length bytes.now }
    ensures { result ≡ header_word name bytes.now }
{
    word(bytes, name.number() as usize)
}

/// Appends a word.
pub fn put_word(bytes: &mut Vec<u8>, word: u32) -> Result<(), NoMemory>
    ensures { OnOk result (bytes.new.items ≡ bytes.old.items ++ word_bytes word) }
{
    let mut four = [0; 4];
    LittleEndian::write_u32(&mut four, word);
    bytes.extend_from_slice(&four)?;
    Ok(())
}
