// What ends the work before the list does.
use crate::reason::Reason;
use std::alloc::{AllocError, AllocFailed};
use std::io;

/// What ends the work before the list does: a line that is not played, want of memory, or input or output that fails.
#[derive(Debug, Drop)]
pub enum Stop {
    Unread(Reason),
    Memory,
    Io(io::Error),
}

impl From<Reason> for Stop {
    fn from(reason: Reason) -> Stop {
        Stop::Unread(reason)
    }
}

impl From<io::Error> for Stop {
    fn from(error: io::Error) -> Stop {
        Stop::Io(error)
    }
}

impl From<AllocError> for Stop {
    fn from(_error: AllocError) -> Stop {
        Stop::Memory
    }
}

impl<T: Drop> From<AllocFailed<T>> for Stop {
    fn from(_refused: AllocFailed<T>) -> Stop {
        Stop::Memory
    }
}
