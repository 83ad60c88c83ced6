// Where what stands in the file.
ghost use Rattle.std.specs.Prelude.{◌≡◌, ◌<◌, ◌^◌};
ghost use Rattle.qs_elf.specs.Elf as spec;

/// The most bytes of a file that is read.
pub const MOST_FILE_BYTES: usize = 33_554_432;

/// The bytes of a page, at whose multiples code and data begin.
pub const PAGE: usize = 4096;

/// Where the note begins: behind the header of the file and those of three segments.
pub const NOTE_AT: usize = 148;

/// Where the image's bytes before its code begin: behind three words of the note and its name.
pub const HEAD_AT: usize = 164;

// The least multiple of 4 that is at least so many.
fn in_words(count: usize) -> usize
    requires { count < 2 ^ 62 }
    ensures { result ≡ spec.rounded_up 4 count }
{
    (count + 3) / 4 * 4
}

// The least multiple of a page that is at least so many.
fn in_pages(count: usize) -> usize
    requires { count < 2 ^ 62 }
    ensures { result ≡ spec.rounded_up spec.page count }
{
    (count + 4095) / 4096 * 4096
}

/// The bytes of the note, with so many of the head.
pub fn note_bytes(head: usize) -> usize
    requires { head < 2 ^ 32 }
    ensures { result ≡ spec.note_bytes head }
{
    16 + in_words(head)
}

/// Where the code begins.
pub fn code_at(head: usize) -> usize
    requires { head < 2 ^ 32 }
    ensures { result ≡ spec.code_at head }
{
    in_pages(NOTE_AT + note_bytes(head))
}

/// Where the data begin.
pub fn data_at(head: usize, code: usize) -> usize
    requires head { head < 2 ^ 32 }
    requires code { code < 2 ^ 32 }
    ensures { result ≡ spec.data_at head code }
{
    in_pages(code_at(head) + code)
}

/// The bytes of the file.
pub fn file_bytes(head: usize, code: usize, size: usize) -> usize
    requires head { head < 2 ^ 32 }
    requires code { code < 2 ^ 32 }
    requires size { size < 2 ^ 32 }
    ensures { result ≡ spec.file_bytes head code size }
{
    data_at(head, code) + size
}
