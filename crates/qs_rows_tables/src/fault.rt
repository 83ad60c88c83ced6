// What is wrong with a table.
use qs_base::NoMemory;
use std::alloc::{AllocError, AllocFailed};
use thiserror::Error;

/// Why a table isn't run to its end. A line is told by its number, from 1.
#[derive(Clone, Copy, Debug, Error)]
pub enum TableFault {
    /// The file can't be read as text.
    #[error("can't be read")]
    NoTable,
    /// The line has no form that a line of a table has.
    #[error("line {0} has no meaning")]
    Line(usize),
    /// The line stands where no row is open, or at another place where it can't stand.
    #[error("line {0} can't stand here")]
    Place(usize),
    /// The table ends within a row.
    #[error("the last row has no end")]
    Open,
    /// No memory was found.
    #[error("out of memory")]
    NoMemory,
}

impl From<NoMemory> for TableFault {
    fn from(_fault: NoMemory) -> TableFault {
        TableFault::NoMemory
    }
}

impl From<AllocError> for TableFault {
    fn from(_fault: AllocError) -> TableFault {
        TableFault::NoMemory
    }
}

impl<T: Drop> From<AllocFailed<T>> for TableFault {
    fn from(_fault: AllocFailed<T>) -> TableFault {
        TableFault::NoMemory
    }
}
