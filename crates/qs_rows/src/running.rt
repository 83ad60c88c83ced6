// What comes of a row.
use qs_base::NoMemory;
use qs_driver::{Devices, run_tool};
use qs_ports::{MemSink, MemStore};
use qs_rows_printing::{
    printed_code, printed_command, printed_instructions, printed_places, printed_tokens,
    printed_unit,
};
use qs_rows_tables::{Act, NamedFile, Row, TableFault};
use std::alloc::{AllocError, Global};

// The room of a store or a sink for what is written, in bytes.
const ROOM: usize = 1 << 20;

/// What a row left: the number of the status, what the streams got, and the files.
#[derive(Drop)]
pub struct Ran {
    pub status: u8,
    pub out: Vec<u8>,
    pub log: Vec<u8>,
    pub store: MemStore,
}

fn pair_of(alloc: Global, file: &NamedFile) -> Result<(String, Vec<u8>), AllocError> {
    let name = String::from_str(alloc, file.name.as_str())?;
    Ok((name, Vec::from_slice(alloc, &file.bytes)?))
}

/// A store with the files of the row.
pub fn store_of(alloc: Global, row: &Row) -> Result<MemStore, NoMemory> {
    let mut files = Vec::new(alloc);
    for file in &row.files {
        files.push(pair_of(alloc, file)?)?;
    }
    let failing = Vec::from_slice(alloc, &row.store_fails)?;
    MemStore::new(alloc, files, row.chunk.max(1), failing, ROOM)
}

fn sink_of(alloc: Global, row: &Row, fails: &[u64]) -> Result<MemSink, NoMemory> {
    let failing = Vec::from_slice(alloc, fails)?;
    MemSink::new(alloc, row.chunk.max(1), failing, ROOM)
}

// Calls the tool with the words of the row.
fn call(alloc: Global, row: &Row, store: MemStore) -> Result<Ran, TableFault> {
    let mut store = store;
    let mut out = sink_of(alloc, row, &row.out_fails)?;
    let mut log = sink_of(alloc, row, &row.log_fails)?;
    let devices = Devices {
        store: &mut store,
        out: &mut out,
        log: &mut log,
    };
    let status = run_tool(alloc, &row.words, devices);
    Ok(Ran {
        status: status.code(),
        out: Vec::from_slice(alloc, out.written())?,
        log: Vec::from_slice(alloc, log.written())?,
        store,
    })
}

// What is printed in place of a call: the status is 1 where there is nothing to print.
fn print(alloc: Global, text: Option<Vec<u8>>, store: MemStore) -> Ran {
    Ran {
        status: u8::from(text.is_none()),
        out: text.unwrap_or(Vec::new(alloc)),
        log: Vec::new(alloc),
        store,
    }
}

// The text that the act prints.
fn text_of(alloc: Global, row: &Row, source: &[u8]) -> Result<Option<Vec<u8>>, TableFault> {
    match row.act {
        Act::Call => Ok(None),
        Act::Print => printed_unit(alloc, source),
        Act::Read => printed_command(alloc, &row.words),
        Act::Lex => printed_tokens(alloc, source),
        Act::Linear => printed_code(alloc, source),
        Act::Places => printed_places(alloc, source, &row.words),
        Act::Decode => printed_instructions(alloc, &row.words),
    }
}

/// Runs a row over the store.
pub fn run(alloc: Global, row: &Row, store: MemStore) -> Result<Ran, TableFault> {
    if row.act == Act::Call {
        call(alloc, row, store)
    } else {
        let text = text_of(alloc, row, store.file("a.c").unwrap_or(b""))?;
        Ok(print(alloc, text, store))
    }
}
