// Tables of rows.
use crate::running::{Ran, run, store_of};
use qs_ports::MemStore;
use qs_rows_tables::{Line, NamedFile, Row, TableFault, line_of};
use std::alloc::Global;

// Prints that something of a row differs.
fn tell<R: Print>(rt: &R, row: &Row, what: &str) {
    let name = row.name.as_str();
    let _printed = rt.println(format_args!("differs: {name}: {what}"));
}

// Prints bytes, those that are no text of ASCII as escapes.
fn tell_bytes<R: Print>(rt: &R, got: &[u8]) {
    let _printed = rt.println(format_args!("  got \"{}\"", got.escape_ascii()));
}

fn is_stream<R: Print>(rt: &R, row: &Row, what: &str, got: &[u8], wanted: &[u8]) -> bool {
    if got != wanted {
        tell(rt, row, what);
        tell_bytes(rt, got);
    }
    got == wanted
}

fn is_status<R: Print>(rt: &R, row: &Row, status: u8) -> bool {
    if status != row.status {
        tell(rt, row, "status");
        let _printed = rt.println(format_args!("  got {status}"));
    }
    status == row.status
}

fn is_file<R: Print>(rt: &R, row: &Row, store: &MemStore, file: &NamedFile) -> bool {
    let same = store.file(file.name.as_str()) == Some(file.bytes.as_slice());
    if !same {
        tell(rt, row, file.name.as_str());
        tell_bytes(rt, store.file(file.name.as_str()).unwrap_or(b"no file"));
    }
    same
}

fn are_files<R: Print>(rt: &R, row: &Row, store: &MemStore) -> bool {
    let mut same = true;
    for file in &row.after {
        same = is_file(rt, row, store, file) && same;
    }
    same
}

// Whether the files that the row has and says nothing more of are as before.
fn are_untouched<R: Print>(rt: &R, row: &Row, store: &MemStore) -> bool {
    let mut same = true;
    for file in &row.files {
        let changes = row.after.iter().any(|after| after.name == file.name);
        same = (changes || is_file(rt, row, store, file)) && same;
    }
    same
}

fn are_gone<R: Print>(rt: &R, row: &Row, store: &MemStore) -> bool {
    let mut gone = true;
    for name in &row.gone {
        if store.file(name.as_str()).is_some() {
            tell(rt, row, name.as_str());
            gone = false;
        }
    }
    gone
}

// Whether all is as the row wants it. What differs is printed.
fn is_as_wanted<R: Print>(rt: &R, row: &Row, ran: &Ran) -> bool {
    let status = is_status(rt, row, ran.status);
    let out = is_stream(rt, row, "out", &ran.out, &row.out);
    let log = is_stream(rt, row, "log", &ran.log, &row.log);
    let after = are_files(rt, row, &ran.store);
    let untouched = are_untouched(rt, row, &ran.store);
    let gone = are_gone(rt, row, &ran.store);
    status && out && log && after && untouched && gone
}

/// A line of a row, and its number in the table.
#[derive(Clone, Copy)]
struct RowLine<'a> {
    number: usize,
    text: &'a str,
}

/// A row whose lines are read: it is run once for each number from the first to the last.
#[derive(Drop)]
struct OpenRow<'a> {
    name: &'a str,
    // Whether the files are those that the row before left.
    goes_on: bool,
    first: u64,
    last: u64,
    lines: Vec<RowLine<'a>>,
}

impl<'a> OpenRow<'a> {
    // A row of one run.
    fn new(alloc: Global, name: &'a str, goes_on: bool) -> OpenRow<'a> {
        OpenRow {
            name,
            goes_on,
            first: 0,
            last: 0,
            lines: Vec::new(alloc),
        }
    }

    fn add(&mut self, line: RowLine<'a>) -> Result<(), TableFault> {
        if let Some(Line::Each(first, last)) = line_of(line.text) {
            self.first = first;
            self.last = last;
        } else {
            self.lines.push(line)?;
        }
        Ok(())
    }

    // The row of the run with this number, which stands for each `~n`.
    fn row(&self, alloc: Global, run: u64) -> Result<Row, TableFault> {
        let run = format!(in alloc; "{run}")?;
        let name = self.name.replace(alloc, "~n", run.as_str())?;
        let mut row = Row::new(alloc, name.as_str(), self.goes_on)?;
        for line in &self.lines {
            let text = line.text.replace(alloc, "~n", run.as_str())?;
            let meant = line_of(text.as_str()).ok_or(TableFault::Line(line.number))?;
            row.add(alloc, meant, line.number)?;
        }
        Ok(row)
    }
}

/// How far a table was run.
#[derive(Drop)]
struct Progress<'a> {
    // The row that is open.
    row: Option<OpenRow<'a>>,
    // The files that the row before left.
    left: Option<MemStore>,
    rows: usize,
    differing: usize,
}

impl<'a> Progress<'a> {
    // The store that a row begins with.
    fn store(&mut self, alloc: Global, row: &Row, number: usize) -> Result<MemStore, TableFault> {
        let left = self.left.take();
        if row.goes_on {
            left.ok_or(TableFault::Place(number))
        } else {
            Ok(store_of(alloc, row)?)
        }
    }

    fn run<R: Print>(
        &mut self,
        rt: &R,
        alloc: Global,
        row: &Row,
        number: usize,
    ) -> Result<(), TableFault> {
        let store = self.store(alloc, row, number)?;
        let ran = run(alloc, row, store)?;
        self.rows = self.rows.saturating_add(1);
        if !is_as_wanted(rt, row, &ran) {
            self.differing = self.differing.saturating_add(1);
        }
        self.left = Some(ran.store);
        Ok(())
    }

    // Runs the row that is open, once for each of its numbers.
    fn close<R: Print>(&mut self, rt: &R, alloc: Global, number: usize) -> Result<(), TableFault> {
        let open = self.row.take().ok_or(TableFault::Place(number))?;
        for run in open.first..open.last.saturating_add(1) {
            let row = open.row(alloc, run)?;
            self.run(rt, alloc, &row, number)?;
        }
        Ok(())
    }

    // Takes a line outside of rows: a row begins, or nothing is meant.
    fn begin(&mut self, alloc: Global, line: RowLine<'a>) -> Result<(), TableFault> {
        match line_of(line.text).ok_or(TableFault::Line(line.number))? {
            Line::Row(name) => self.row = Some(OpenRow::new(alloc, name, false)),
            Line::Then(name) => self.row = Some(OpenRow::new(alloc, name, true)),
            Line::Nothing => {}
            _ => return Err(TableFault::Place(line.number)),
        }
        Ok(())
    }

    fn take<R: Print>(
        &mut self,
        rt: &R,
        alloc: Global,
        line: RowLine<'a>,
    ) -> Result<(), TableFault> {
        if line.text == "end" {
            return self.close(rt, alloc, line.number);
        }
        match &mut self.row {
            Some(row) => row.add(line),
            None => self.begin(alloc, line),
        }
    }
}

/// Runs the rows of a table, prints what differs and how many rows there are, and tells how many
/// differ.
pub fn run_table<R: Print + AllocGlobal>(
    rt: &R,
    name: &str,
    text: &str,
) -> Result<usize, TableFault> {
    let mut progress = Progress {
        row: None,
        left: None,
        rows: 0,
        differing: 0,
    };
    let mut number: usize = 0;
    for line in text.split('\n') {
        number = number.saturating_add(1);
        let line = RowLine { number, text: line };
        progress.take(rt, rt.alloc(), line)?;
    }
    if progress.row.is_some() {
        return Err(TableFault::Open);
    }
    let (rows, differing) = (progress.rows, progress.differing);
    let _printed = rt.println(format_args!("{name}: {rows} rows, {differing} differ"));
    Ok(differing)
}
