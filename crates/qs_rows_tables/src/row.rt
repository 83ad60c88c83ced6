// Rows, and how lines fill them.
use crate::content::{add_hex, add_text, add_times, cut, set_byte};
use crate::fault::TableFault;
use crate::line::{Device, Line};
use qs_ports::StoreCall;
use std::alloc::{AllocError, Global};

/// What a row asks for.
#[derive(Clone, Copy, Debug, PartialEq, Eq)]
pub enum Act {
    /// A call of the tool.
    Call,
    /// The unit of the source `a.c`, printed.
    Print,
    /// What the words mean, printed.
    Read,
    /// The tokens of the source `a.c`, printed.
    Lex,
    /// The linear code of the source `a.c`, printed.
    Linear,
    /// The places of the temporaries of the source `a.c`, printed.
    Places,
    /// The instructions that the words are as hexadecimal numbers, printed.
    Decode,
}

/// Where content is added.
#[derive(Clone, Copy, Debug)]
enum Target {
    File,
    Out,
    Log,
    After,
}

/// A file and its bytes.
#[derive(Drop)]
pub struct NamedFile {
    pub name: String,
    pub bytes: Vec<u8>,
}

/// A row: what is given, and what must come of it.
#[derive(Drop)]
pub struct Row {
    pub name: String,
    /// Whether the files are those that the row before left.
    pub goes_on: bool,
    pub act: Act,
    pub files: Vec<NamedFile>,
    pub words: Vec<String>,
    /// The most bytes that a call of a device moves.
    pub chunk: usize,
    pub store_fails: Vec<(StoreCall, u64)>,
    pub out_fails: Vec<u64>,
    pub log_fails: Vec<u64>,
    pub status: u8,
    pub out: Vec<u8>,
    pub log: Vec<u8>,
    pub after: Vec<NamedFile>,
    pub gone: Vec<String>,
    target: Target,
}

const ALL_AT_ONCE: usize = 1 << 30;

impl Row {
    /// A row with this name, in which nothing is given and nothing must come.
    pub fn new(alloc: Global, name: &str, goes_on: bool) -> Result<Row, AllocError> {
        Ok(Row {
            name: String::from_str(alloc, name)?,
            goes_on,
            act: Act::Call,
            files: Vec::new(alloc),
            words: Vec::new(alloc),
            chunk: ALL_AT_ONCE,
            store_fails: Vec::new(alloc),
            out_fails: Vec::new(alloc),
            log_fails: Vec::new(alloc),
            status: 0,
            out: Vec::new(alloc),
            log: Vec::new(alloc),
            after: Vec::new(alloc),
            gone: Vec::new(alloc),
            target: Target::Out,
        })
    }

    fn add_words(&mut self, alloc: Global, text: &str) -> Result<(), AllocError> {
        for word in text.split(' ') {
            self.words.push(String::from_str(alloc, word)?)?;
        }
        Ok(())
    }

    fn add_failure(&mut self, device: Device, call: u64) -> Result<(), AllocError> {
        match device {
            Device::Files(kind) => self.store_fails.push((kind, call))?,
            Device::Out => self.out_fails.push(call)?,
            Device::Log => self.log_fails.push(call)?,
        }
        Ok(())
    }

    // Where content is added now, if it can be added.
    fn content(&mut self) -> Option<&mut Vec<u8>> {
        match self.target {
            Target::File => self.files.last_mut().map(|file| &mut file.bytes),
            Target::Out => Some(&mut self.out),
            Target::Log => Some(&mut self.log),
            Target::After => self.after.last_mut().map(|file| &mut file.bytes),
        }
    }

    // Adds a line of content; false where the line is none.
    fn add_content(
        &mut self,
        alloc: Global,
        line: Line<'_>,
        number: usize,
    ) -> Result<(), TableFault> {
        let Some(bytes) = self.content() else {
            return Err(TableFault::Place(number));
        };
        match line {
            Line::Text(text) => add_text(bytes, text, number),
            Line::Put(text) => {
                add_text(bytes, text, number)?;
                bytes.push(b'\n')?;
                Ok(())
            }
            Line::Times(count, text) => add_times(alloc, bytes, count, text, number),
            Line::Hex(text) => add_hex(alloc, bytes, text, number),
            Line::Cut(count) => cut(bytes, count, number),
            Line::Byte(at, digits) => set_byte(bytes, at, digits, number),
            _ => Err(TableFault::Place(number)),
        }
    }

    /// Adds what a line within a row says.
    pub fn add(&mut self, alloc: Global, line: Line<'_>, number: usize) -> Result<(), TableFault> {
        match line {
            Line::Nothing => {}
            Line::File(name) => {
                self.files.push(file_named(alloc, name)?)?;
                self.target = Target::File;
            }
            Line::Words(text) => self.add_words(alloc, text)?,
            Line::Print => self.act = Act::Print,
            Line::Read => self.act = Act::Read,
            Line::Lex => self.act = Act::Lex,
            Line::Linear => self.act = Act::Linear,
            Line::Places => self.act = Act::Places,
            Line::Decode => self.act = Act::Decode,
            Line::Chunk(chunk) => self.chunk = chunk.max(1),
            Line::Fails(device, call) => self.add_failure(device, call)?,
            Line::Status(status) => self.status = status,
            Line::Out => self.target = Target::Out,
            Line::Log => self.target = Target::Log,
            Line::After(name) => {
                self.after.push(file_named(alloc, name)?)?;
                self.target = Target::After;
            }
            Line::Gone(name) => self.gone.push(String::from_str(alloc, name)?)?,
            other => self.add_content(alloc, other, number)?,
        }
        Ok(())
    }
}

// A file without bytes.
fn file_named(alloc: Global, name: &str) -> Result<NamedFile, AllocError> {
    Ok(NamedFile {
        name: String::from_str(alloc, name)?,
        bytes: Vec::new(alloc),
    })
}
