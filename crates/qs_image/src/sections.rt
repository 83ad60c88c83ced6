// The sections of an image's bytes.
ghost use Rattle.std.specs.Prelude.{◌≡◌, ◌<◌, ◌≤◌, ◌^◌, length};
ghost use Rattle.qs_image.specs.Bytes.{header_bytes, table_bytes};
ghost use Rattle.qs_image.specs.Bytes.{size, names_length, table_of, image_of};
ghost use Rattle.qs_image.specs.View.{image_in, records_left};

use crate::fault::HeaderWord;
use crate::records::Records;
use crate::version::Version;
use crate::word::{header_word, word};

/// The four bytes of the version and seven words.
pub const HEADER_BYTES: usize = 32;

/// The number of the word of the header that has no range, the address to begin at.
const ENTRY_WORD: usize = 5;

/// The bytes of an image, taken apart: the version, three words of the header, the table of
/// records, the names, the code and the data.
#[derive(Clone, Copy)]
pub struct Sections<'a> {
    pub version: Version,
    pub entry: u32,
    pub parameters: u32,
    pub unsigned_set: u32,
    pub table: &'a [u8],
    pub names: &'a [u8],
    pub code: &'a [u8],
    pub data: &'a [u8],
}

/// How many bytes the records have.
pub fn table_bytes(bytes: &[u8]) -> usize
    requires { header_bytes ≤ length bytes.now }
    ensures value { result ≡ table_bytes bytes.now }
    ensures most { result < 2 ^ 36 }
{
    let function_count = header_word(bytes, HeaderWord::FunctionCount) as usize;
    match Version::of(bytes) {
        Version::First => 12 * function_count,
        Version::Second => 16 * function_count,
    }
}

impl<'a> Sections<'a> {
    /// The sections of bytes that are as long as their counts ask.
    pub fn of(bytes: &'a [u8]) -> Sections<'a>
        requires { length bytes.now ≡ size bytes.now }
        ensures table { result.table.now ≡ table_of bytes.now }
        ensures names { length result.names.now ≡ names_length bytes.now }
        ensures image { image_in result ≡ image_of bytes.now }
    {
        let version = Version::of(bytes);
        let table_bytes = table_bytes(bytes);
        let names_length = header_word(bytes, HeaderWord::NamesLength) as usize;
        let code_count = header_word(bytes, HeaderWord::CodeCount) as usize;
        let (_, behind_header) = bytes.split_at(HEADER_BYTES);
        let (table, behind_table) = behind_header.split_at(table_bytes);
        let (names, behind_names) = behind_table.split_at(names_length);
        let (code, data) = behind_names.split_at(4 * code_count);
        Sections {
            version,
            entry: word(bytes, ENTRY_WORD),
            parameters: header_word(bytes, HeaderWord::Parameters),
            unsigned_set: header_word(bytes, HeaderWord::UnsignedSet),
            table,
            names,
            code,
            data,
        }
    }

    /// The count of words of code.
    pub fn code_count(&self) -> u32
        requires { length (image_in self.now).code < 2 ^ 32 }
        ensures { result ≡ length (image_in self.now).code }
    {
        (self.code.len() / 4) as u32
    }

    /// The count of records.
    pub fn function_count(&self) -> u32
        requires { length (image_in self.now).functions < 2 ^ 32 }
        ensures { result ≡ length (image_in self.now).functions }
    {
        (self.table.len() / self.version.record_bytes()) as u32
    }

    /// The records.
    pub fn records(&self) -> Records<'a>
        ensures version { result.version ≡ self.now.version }
        ensures table { result.table.now ≡ self.now.table.now }
        ensures names { result.names.now ≡ self.now.names.now }
        ensures records { records_left result ≡ (image_in self.now).functions }
    {
        Records {
            version: self.version,
            table: self.table,
            names: self.names,
        }
    }
}
