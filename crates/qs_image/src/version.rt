// The versions of the format.
use crate::word::word;

/// A version of the format. Both are read, the second is written.
#[derive(Clone, Copy, Debug)]
pub enum Version {
    /// It begins with `QSI1`, and its records say no counts of parameters.
    First,
    /// It begins with `QSI2`, and its records say them.
    Second,
}

impl Version {
    ghost use Rattle.std.specs.Prelude.{◌≡◌, ◌≤◌, length};
    ghost use Rattle.qs_image.specs.Bytes.{version_number, version_of};
    ghost use Rattle.qs_image.specs.Bytes.{record_bytes, first_parameters};

    /// The version that the first four bytes name. Bytes that begin as none are taken for the
    /// second.
    #[tactic(auto, unfolding(crate::specs::Bytes::version_of))]
    pub fn of(bytes: &[u8]) -> Version
        ensures { result ≡ version_of bytes.now }
    {
        if bytes.starts_with(b"QSI1") {
            Version::First
        } else {
            Version::Second
        }
    }

    /// 1 or 2.
    pub fn number(self) -> u32
        ensures { result ≡ version_number self }
    {
        match self {
            Version::First => 1,
            Version::Second => 2,
        }
    }

    /// The bytes of a record: three words, in version 2 four.
    pub fn record_bytes(self) -> usize
        ensures value { result ≡ record_bytes self }
        ensures least { 12 ≤ result }
        ensures most { result ≤ 16 }
    {
        match self {
            Version::First => 12,
            Version::Second => 16,
        }
    }

    /// The count of parameters that the first record of a table says.
    pub fn first_parameters(self, table: &[u8]) -> Option<u32>
        requires { record_bytes self ≤ length table.now }
        ensures { result ≡ first_parameters self table.now }
    {
        match self {
            Version::First => None,
            Version::Second => Some(word(table, 3)),
        }
    }
}
