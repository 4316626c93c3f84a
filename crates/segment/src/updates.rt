// What a link adds to a state, and what a replacement takes from it.
ghost use Rattle.std.specs.Prelude.{◌≡◌, ◌+◌, ◌^◌, ◌<◌, ◌≤◌};
ghost use Rattle.segment.specs.Signs.{same_z};
ghost use Rattle.segment.specs.Updates.{linked, deferred, lowered, counted};

use crate::state::{Active, Draining, Inactive};
use crate::types::Lsn;

impl Active {
    // One entry more is written.
    pub fn insert_pid(mut self, size: u64) -> Active
        requires { self.rss + size < 2 ^ 64 }
        ensures { result ≡ linked size self }
    {
        self.rss += size;
        self
    }

    // Whether an LSN with this base lies in the segment.
    pub fn is_at(&self, base: Lsn) -> bool
        ensures { result ≡ same_z self.now.lsn base }
    {
        self.lsn == base
    }

    // A page is replaced; its bytes count until the segment is deactivated.
    pub fn remove_pid(mut self, base: Lsn, size: u64) -> Active
        requires { self.deferred_replaced_rss + size < 2 ^ 64 }
        ensures { result ≡ deferred base size self }
    {
        self.deferred_replaced_rss += size;
        self.latest_replacement_lsn = self.latest_replacement_lsn.max(base);
        self
    }
}

impl Inactive {
    // A page is replaced and leaves.
    pub fn remove_pid(mut self, base: Lsn, size: u64) -> Inactive
        requires live { size ≤ self.rss }
        requires few { self.replaced_pids + 1 < 2 ^ 64 }
        ensures { result ≡ lowered base size self }
    {
        self.rss -= size;
        self.replaced_pids += 1;
        self.latest_replacement_lsn = base.max(self.latest_replacement_lsn);
        self
    }
}

impl Draining {
    // A page is replaced and leaves; its bytes are no longer counted.
    pub fn remove_pid(mut self, base: Lsn) -> Draining
        requires { self.replaced_pids + 1 < 2 ^ 64 }
        ensures { result ≡ counted base self }
    {
        self.replaced_pids = self.replaced_pids + 1;
        self.latest_replacement_lsn = self.latest_replacement_lsn.max(base);
        self
    }
}
