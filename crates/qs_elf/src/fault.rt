// Why bytes are no executable of an image.
ghost use Rattle.std.specs.Prelude.{◌≡◌};
ghost use Rattle.qs_elf.specs.declared.fault.ElfFault.TheVariants as fault;

use qs_base::NoMemory;
use qs_image::ImageFault;
use thiserror::Error;

/// A word of the file that says again what the image says.
#[derive(Clone, Copy, Debug)]
pub enum StatedWord {
    /// The address of the first instruction to run.
    Entry,
    /// How many bytes of code there are.
    Code,
    /// How many bytes of data there are.
    Data,
}

impl StatedWord {
    ghost use Rattle.std.specs.Prelude.{◌≡◌};
    ghost use Rattle.qs_elf.specs.Faults.{stated_number};

    /// The number of the word among these.
    pub fn number(self) -> u32
        ensures { result ≡ stated_number self }
    {
        match self {
            StatedWord::Entry => 0,
            StatedWord::Code => 1,
            StatedWord::Data => 2,
        }
    }
}

/// Why bytes are no executable of an image: the first test that they fail, in this order.
#[derive(Debug, Drop, Error)]
pub enum ElfFault {
    /// There are fewer than 164 bytes.
    #[error("short")]
    Short,
    /// There are not as many bytes as this, where the sizes that the file states end.
    #[error("length {0}")]
    Length(usize),
    /// The byte at this offset is not the one that stands in each such file; the first such.
    #[error("field {0}")]
    Field(usize),
    /// What the file carries is no image.
    #[error("{0}")]
    Image(ImageFault),
    /// This word is not the image's; the first such.
    #[error("differs {}", .0.number())]
    Differs(StatedWord),
    /// Memory ran out.
    #[error("out of memory")]
    NoMemory,
}

impl From<NoMemory> for ElfFault {
    ghost from_gives = { λ _ answer. answer ≡ fault.NoMemory };

    fn from(_fault: NoMemory) -> ElfFault {
        ElfFault::NoMemory
    }
}
