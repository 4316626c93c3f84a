// Freeing a segment, and lowering the tip over the free ones at the end.
ghost use Rattle.std.specs.Prelude.{◌≡◌, ◌-◌, ◌*◌, ◌^◌, ◌<◌, ◌≤◌, length, Ok, Err, ◌≢◌};
ghost use Rattle.table.specs.Held.{held};
ghost use Rattle.rules.specs.Books.{with_faults};
ghost use Rattle.rules.specs.Freeing.{put_free, unordered, can_cut, lowered, remembered};
ghost use Rattle.ledger.specs.Ledgers.{books_of};

use crate::ledger::{Ledger, MAX_SEGMENTS};
use crate::room::put;
use host::HostFault;
use ranges::remove_of_first;
use segment::{FaultRow, Free, LogOffset, OrderingRow, SegmentId, State};
use table::Table;

// The row of the LSN that a Free segment had goes.
fn unorder(ordering: &mut Table<OrderingRow, MAX_SEGMENTS>, state: &State)
    ensures { held ordering.new ≡ unordered state.now (held ordering.old) }
{
    if let State::Free(
        Free {
            previous_lsn: Some(lsn),
        },
    ) = state
    {
        ordering.remove(*lsn);
    }
}

impl Ledger {
    // Segment n, which is Free, is unlisted, its page rows and its ordering row go, and its offset joins the free list.
    pub fn put_free(&mut self, n: SegmentId)
        requires reached { n < length (books_of self.old).segments }
        requires fits { n * self.old.segment_size < 2 ^ 64 }
        requires room { length (put_free n (books_of self.old)).free ≤ 256 }
        ensures { books_of self.new ≡ put_free n (books_of self.old) }
    {
        let offset = n * self.segment_size;
        unorder(&mut self.ordering, &self.segments.at(n).state);
        remove_of_first(&mut self.pages, n);
        self.listed.remove(offset);
        put(&mut self.free, offset);
    }

    // Whether the last segment below the tip is free, and not the only one that is.
    pub fn can_cut(&self) -> bool
        requires { (self.now.tip ≢ 0) → self.now.segment_size ≤ self.now.tip }
        ensures { result ≡ can_cut (books_of self.now) }
    {
        self.tip != 0
            && self.free.len() > 1
            && self.free.get(self.tip - self.segment_size).is_some()
    }

    // The last segment below the tip leaves the free list and becomes the tip.
    pub fn lower_tip(&mut self) -> LogOffset
        requires { self.old.segment_size ≤ self.old.tip }
        ensures offset { result ≡ self.old.tip - self.old.segment_size }
        ensures books { books_of self.new ≡ lowered (books_of self.old) (Ok tt) }
    {
        self.tip -= self.segment_size;
        self.free.remove(self.tip);
        self.tip
    }

    // A refused cut is remembered.
    pub fn remember(&mut self, offset: LogOffset, fault: HostFault)
        requires { length (remembered offset (Err fault) (books_of self.old).faults) ≤ 256 }
        ensures { books_of self.new ≡ with_faults (remembered offset (Err fault) (books_of self.old).faults) (books_of self.old) }
    {
        put(
            &mut self.faults,
            FaultRow {
                offset,
                code: fault.code(),
                layer: fault.layer(),
            },
        );
    }
}
