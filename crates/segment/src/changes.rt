// The changes of state: each takes one state and gives the next.
ghost use Rattle.std.specs.Prelude.{◌≡◌, ◌≤◌};
ghost use Rattle.segment.specs.Changes.{opened, closed, drained, emptied};

use crate::state::{Active, Draining, Free, Inactive};
use crate::types::Lsn;

impl Free {
    // The segment is handed out to the log, from this LSN on.
    pub fn activate(self, lsn: Lsn) -> Active
        ensures { result ≡ opened lsn }
    {
        Active {
            lsn,
            rss: 0,
            deferred_replaced_rss: 0,
            latest_replacement_lsn: 0,
        }
    }
}

impl Active {
    // All of it is stable, and nothing more is written. It has so many pages, of which so many have left.
    pub fn deactivate(self, max_pids: u64, replaced_pids: u64) -> Inactive
        requires { self.deferred_replaced_rss ≤ self.rss }
        ensures { result ≡ closed max_pids replaced_pids self }
    {
        Inactive {
            lsn: self.lsn,
            rss: self.rss - self.deferred_replaced_rss,
            max_pids,
            replaced_pids,
            latest_replacement_lsn: self.latest_replacement_lsn,
        }
    }
}

impl Inactive {
    // Its pages are to be rewritten elsewhere.
    pub fn drain(self) -> Draining
        ensures { result ≡ drained self }
    {
        Draining {
            lsn: self.lsn,
            max_pids: self.max_pids,
            replaced_pids: self.replaced_pids,
            latest_replacement_lsn: self.latest_replacement_lsn,
        }
    }
}

impl Draining {
    // None of its pages is left.
    pub fn free(self) -> Free
        ensures { result ≡ emptied self }
    {
        Free {
            previous_lsn: Some(self.lsn),
        }
    }
}
