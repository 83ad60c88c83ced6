//! Runs tables of rows. A row has files, the words of a call and the calls of devices that fail,
//! and what the call must answer: its status, its lines and the files that it leaves. Each row is
//! run through the tool over files and streams in memory; what differs is printed, and at the end
//! of a table how many rows it has. docs/ROWS.md has the form of a table.
#![tactic(auto)]

mod running;
mod table;

use qs_rows_tables::TableFault;
use std::env::{self, Env};
use std::process::ExitCode;
use std::rt::Files;
use table::run_table;

// Runs the table in the file of this name, and tells how many of its rows differ.
fn run_file<R: Print + Files + AllocGlobal>(rt: &R, name: &str) -> Result<usize, TableFault> {
    let text = std::fs::read_to_string(rt, name).map_err(|_error| TableFault::NoTable)?;
    run_table(rt, name, text.as_str())
}

// Whether no row of the table differs.
fn is_as_wanted<R: Print + Files + AllocGlobal>(rt: &R, name: &str) -> bool {
    match run_file(rt, name) {
        Ok(differing) => differing == 0,
        Err(fault) => {
            let _printed = rt.println(format_args!("{name}: {fault}"));
            false
        }
    }
}

fn main(rt: HostRuntime) -> ExitCode {
    let mut good = true;
    if let Ok(names) = env::args(&rt) {
        for name in names.skip(1) {
            good = is_as_wanted(&rt, name.as_str()) && good;
        }
    }
    ExitCode::from(u8::from(!good))
}
