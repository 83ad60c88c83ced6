// Why a text is no list of tasks.
ghost use Rattle.std.specs.Prelude.{◌≡◌};
ghost use Rattle.qs_tasks_list.specs.declared.fault.TasksFault.TheVariants as fault;

use qs_base::NoMemory;
use std::alloc::{AllocError, AllocFailed};
use thiserror::Error;

/// Why a text is no list of tasks: the first fault, with the number of the first byte of the line
/// where it stands. A bad line comes before any other fault.
#[derive(Clone, Copy, Debug, Error)]
pub enum TasksFault {
    /// No memory was found.
    #[error("out of memory")]
    NoMemory,
    /// The line is not of the form that may stand there, or is one too many, or does not end.
    #[error("bad line at {0}")]
    BadLine(u32),
    /// The name is that of no function with a body, without parameters and other than `main`.
    #[error("no such task function at {0}")]
    NoFunction(u32),
    /// The name is that of an earlier task.
    #[error("task twice at {0}")]
    Twice(u32),
    /// The name of the arrival is that of no task.
    #[error("no such task at {0}")]
    NoTask(u32),
    /// The arrival comes earlier than the one before it.
    #[error("out of order at {0}")]
    Order(u32),
}

impl From<NoMemory> for TasksFault {
    ghost from_gives = { λ _ answer. answer ≡ fault.NoMemory };

    fn from(_fault: NoMemory) -> TasksFault {
        TasksFault::NoMemory
    }
}

impl From<AllocError> for TasksFault {
    ghost from_gives = { λ _ answer. answer ≡ fault.NoMemory };

    fn from(_fault: AllocError) -> TasksFault {
        TasksFault::NoMemory
    }
}

impl<T: Drop> From<AllocFailed<T>> for TasksFault {
    ghost from_gives = { λ _ answer. answer ≡ fault.NoMemory };

    fn from(_fault: AllocFailed<T>) -> TasksFault {
        TasksFault::NoMemory
    }
}
