// Why bytes are no image.
use thiserror::Error;

/// A word of the header that has a range.
#[derive(Clone, Copy, Debug)]
pub enum HeaderWord {
    /// How many words of code there are.
    CodeCount,
    /// How many bytes of data there are.
    ByteCount,
    /// How many functions there are.
    FunctionCount,
    /// How many bytes the names have together.
    NamesLength,
    /// How many parameters main has.
    Parameters,
    /// Which of them are unsigned, a bit each.
    UnsignedSet,
}

impl HeaderWord {
    ghost use Rattle.std.specs.Prelude.{◌≡◌};
    ghost use Rattle.qs_image.specs.Bytes.{word_number};

    /// The number of the word, its offset divided by 4.
    pub fn number(self) -> u32
        ensures { result ≡ word_number self }
    {
        match self {
            HeaderWord::CodeCount => 1,
            HeaderWord::ByteCount => 2,
            HeaderWord::FunctionCount => 3,
            HeaderWord::NamesLength => 4,
            HeaderWord::Parameters => 6,
            HeaderWord::UnsignedSet => 7,
        }
    }
}

/// Why bytes are no image: the first test that they fail. The tests come in this order: `Short` for
/// the header, `Magic`, `Count`, `Short` for the rest, `Trailing`, `Names`, `Entry`, `Cost`,
/// `Params`.
#[derive(Clone, Copy, Debug, Error)]
pub enum ImageFault {
    /// There are fewer than 32 bytes, or fewer than the counts ask for.
    #[error("short")]
    Short,
    /// The bytes begin with neither `QSI1` nor `QSI2`.
    #[error("magic")]
    Magic,
    /// This word of the header is out of its range; the first such.
    #[error("count {}", .0.number())]
    Count(HeaderWord),
    /// There are more bytes than the counts ask for.
    #[error("trailing")]
    Trailing,
    /// The address to begin at or that of a record is that of no instruction.
    #[error("entry")]
    Entry,
    /// The cost of the record of this number, from 0, is no positive multiple of 16 up to
    /// `LARGEST_COST`; the least such.
    #[error("cost {0}")]
    Cost(u32),
    /// A name is no name of the language, two names are equal, none is `main`, or their lengths do
    /// not add up to the count of the bytes of names.
    #[error("names")]
    Names,
    /// The count of parameters of the record of this number, from 0, is above `MOST_PARAMETERS` of
    /// qs_base, or is main's and not the image's; the least such.
    #[error("params {0}")]
    Params(u32),
}
