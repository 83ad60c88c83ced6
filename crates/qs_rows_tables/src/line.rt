// The lines of a table.
use qs_ports::StoreCall;

/// A device whose calls may fail.
#[derive(Clone, Copy)]
pub enum Device {
    /// The files: a call of this kind.
    Files(StoreCall),
    /// Standard output.
    Out,
    /// Standard error.
    Log,
}

/// A line of a table.
#[derive(Clone, Copy)]
pub enum Line<'a> {
    /// Nothing, or a comment.
    Nothing,
    /// A row with this name begins.
    Row(&'a str),
    /// A row with this name begins, over the files that the row before left.
    Then(&'a str),
    /// A file with this name is there, with the content that follows.
    File(&'a str),
    /// The words of the call.
    Words(&'a str),
    /// In place of a call, the unit of the source `a.c` is printed.
    Print,
    /// In place of a call, what the words mean is printed.
    Read,
    /// In place of a call, the tokens of the source `a.c` are printed.
    Lex,
    /// In place of a call, the linear code of the source `a.c` is printed.
    Linear,
    /// In place of a call, the places of the temporaries of the source `a.c` are printed.
    Places,
    /// In place of a call, the instructions that the words are as hexadecimal numbers are printed.
    Decode,
    /// The most bytes that a call of a device moves.
    Chunk(usize),
    /// The call of the device with this number, from 0, fails.
    Fails(Device, u64),
    /// The row is run once for each number from the first to the last.
    Each(u64, u64),
    /// The number of the status.
    Status(u8),
    /// What standard output gets follows.
    Out,
    /// What standard error gets follows.
    Log,
    /// What the file with this name holds afterwards follows.
    After(&'a str),
    /// There is no file with this name afterwards.
    Gone(&'a str),
    /// Content: this text.
    Text(&'a str),
    /// Content: this text, and 0x0A.
    Put(&'a str),
    /// Content: this text, so many times.
    Times(usize, &'a str),
    /// Content: these bytes, two digits each.
    Hex(&'a str),
    /// Content: only so many of its first bytes.
    Cut(usize),
    /// Content: its byte with this number, from 0, is this one, of two digits.
    Byte(usize, &'a str),
    /// The row ends.
    End,
}

fn device_of(name: &str) -> Option<Device> {
    match name {
        "open" => Some(Device::Files(StoreCall::Open)),
        "read" => Some(Device::Files(StoreCall::Read)),
        "create" => Some(Device::Files(StoreCall::Create)),
        "write" => Some(Device::Files(StoreCall::Write)),
        "out" => Some(Device::Out),
        "log" => Some(Device::Log),
        _ => None,
    }
}

fn fails_of<'a>(rest: &'a str) -> Option<Line<'a>> {
    let (device, number) = rest.split_once(' ')?;
    let number = number.parse::<u64>().ok()?;
    Some(Line::Fails(device_of(device)?, number))
}

fn each_of<'a>(rest: &'a str) -> Option<Line<'a>> {
    let (first, last) = rest.split_once(' ')?;
    let first = first.parse::<u64>().ok()?;
    let last = last.parse::<u64>().ok()?;
    Some(Line::Each(first, last))
}

fn byte_of<'a>(rest: &'a str) -> Option<Line<'a>> {
    let (number, digits) = rest.split_once(' ')?;
    let number = number.parse::<usize>().ok()?;
    Some(Line::Byte(number, digits))
}

fn times_of<'a>(rest: &'a str) -> Option<Line<'a>> {
    let (count, text) = rest.split_once(' ')?;
    let count = count.parse::<usize>().ok()?;
    Some(Line::Times(count, text))
}

// A line of content.
fn content_of<'a>(word: &str, rest: &'a str) -> Option<Line<'a>> {
    match word {
        "text" => Some(Line::Text(rest)),
        "put" => Some(Line::Put(rest)),
        "times" => times_of(rest),
        "hex" => Some(Line::Hex(rest)),
        "cut" => Some(Line::Cut(rest.parse::<usize>().ok()?)),
        "byte" => byte_of(rest),
        _ => None,
    }
}

// A line of what the call must answer.
fn wanted_of<'a>(word: &str, rest: &'a str) -> Option<Line<'a>> {
    match word {
        "status" => Some(Line::Status(rest.parse::<u8>().ok()?)),
        "out" => Some(Line::Out),
        "log" => Some(Line::Log),
        "after" => Some(Line::After(rest)),
        "gone" => Some(Line::Gone(rest)),
        _ => content_of(word, rest),
    }
}

// A line of what is given.
fn given_of<'a>(word: &str, rest: &'a str) -> Option<Line<'a>> {
    match word {
        "file" => Some(Line::File(rest)),
        "words" => Some(Line::Words(rest)),
        "print" => Some(Line::Print),
        "read" => Some(Line::Read),
        "lex" => Some(Line::Lex),
        "linear" => Some(Line::Linear),
        "places" => Some(Line::Places),
        "decode" => Some(Line::Decode),
        "chunk" => Some(Line::Chunk(rest.parse::<usize>().ok()?)),
        "fails" => fails_of(rest),
        "each" => each_of(rest),
        _ => wanted_of(word, rest),
    }
}

/// What a line means, or None where it has no meaning.
pub fn line_of<'a>(line: &'a str) -> Option<Line<'a>> {
    let (word, rest) = line.split_once(' ').unwrap_or((line, ""));
    match word {
        "" | "#" => Some(Line::Nothing),
        "row" => Some(Line::Row(rest)),
        "then" => Some(Line::Then(rest)),
        "end" => Some(Line::End),
        _ => given_of(word, rest),
    }
}
