// Requests written down with their answers.
use host::{HostFault, Request};
use std::alloc::Global;
use std::cell::Cell;

/// A request with its answer.
#[derive(Clone, Copy)]
pub struct Asked {
    pub request: Request,
    pub answer: Result<(), HostFault>,
}

/// Where requests are written down.
pub trait Notes {
    fn note(&mut self, asked: Asked);
}

/// The requests since they were last taken out, the oldest first. They can be taken out through a shared reference, which is all that
/// an accountant gives of its host.
#[derive(Drop)]
pub struct Log {
    // None once a request could not be written down for want of memory.
    asked: Cell<Option<Vec<Asked>>>,
}

impl Log {
    pub fn new(heap: Global) -> Log {
        Log {
            asked: Cell::new(Some(Vec::new(heap))),
        }
    }

    /// Takes out what was written down; none once a request was lost for want of memory.
    pub fn take_out(&self, heap: Global) -> Option<Vec<Asked>> {
        let asked = self.asked.take()?;
        self.asked.set(Some(Vec::new(heap)));
        Some(asked)
    }
}

impl Notes for Log {
    fn note(&mut self, asked: Asked) {
        if let Some(list) = self.asked.get_mut()
            && list.push(asked).is_err()
        {
            self.asked.set(None);
        }
    }
}
