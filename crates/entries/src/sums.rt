// The sizes of old entries, summed by segment.
ghost use Rattle.std.specs.Prelude.{◌≡◌, ◌+◌, ◌^◌, ◌<◌, ◌≤◌, true, not, [], length, IfOk};
ghost use Rattle.table.specs.Held.{held};
ghost use Rattle.table.specs.Rows.{every, find, insert_row};
ghost use Rattle.rules.specs.Links.{info_segment, too_large};
ghost use Rattle.rules.specs.Replacing.{sums_of};
ghost use Rattle.ledger.specs.Ledgers.{books_of};
ghost use Rattle.entries.specs.Sums.{pairs, size_in};
ghost use Rattle.std.specs.Ordering.{nat_cmp};
ghost use Rattle.entries.specs.SumKeys.{sum_key, sum_row};

use crate::replaces::MAX_OLDS;
use ledger::{Ledger, put};
use segment::{CacheInfo, SegmentId};
use std::alloc::{AllocError, Global};
use table::{Key, Row, Table};

// So many bytes of old entries lie in a segment.
#[derive(Clone, Copy)]
pub struct SumRow {
    pub segment: SegmentId,
    pub size: u64,
}

impl Row for SumRow {
    type Key = u64;

    ghost keyed = { sum_key };

    fn key(&self) -> u64 {
        self.segment
    }
}

#[derive(Drop)]
pub struct Sums {
    pub rows: Table<SumRow, MAX_OLDS>,
}

impl Sums {
    pub fn new(heap: Global) -> Result<Sums, AllocError>
        ensures { IfOk result (λ s. held s.rows ≡ []) }
    {
        let rows = Table::new(heap)?;
        Ok(Sums { rows })
    }

    fn clear(&mut self)
        ensures { held self.new.rows ≡ [] }
    {
        self.rows.clear();
    }

    // The sum of segment n so far.
    fn size_in(&self, n: SegmentId) -> u64
        ensures { result ≡ size_in (find sum_key nat_cmp (held self.now.rows) n) }
    {
        self.rows.get(n).map_or(0, |row| row.size)
    }

    // An old entry of this size lies in segment n.
    fn add(&mut self, n: SegmentId, size: u64)
        requires fits { size_in (find sum_key nat_cmp (held self.old.rows) n) + size < 2 ^ 64 }
        requires room { length (held self.old.rows) < 256 }
        ensures { held self.new.rows ≡ insert_row sum_key nat_cmp (held self.old.rows) (sum_row n (size_in (find sum_key nat_cmp (held self.old.rows) n) + size)) }
    {
        let size = self.size_in(n) + size;
        put(&mut self.rows, SumRow { segment: n, size });
    }

    fn add_old(&mut self, ledger: &Ledger, old: &CacheInfo)
        requires size { 0 < ledger.now.segment_size }
        requires fits { size_in (find sum_key nat_cmp (held self.old.rows) (info_segment (books_of ledger.now) old.now)) + old.now.log_size < 2 ^ 64 }
        requires room { length (held self.old.rows) < 256 }
        ensures { held self.new.rows ≡ insert_row sum_key nat_cmp (held self.old.rows) (sum_row (info_segment (books_of ledger.now) old.now) (size_in (find sum_key nat_cmp (held self.old.rows) (info_segment (books_of ledger.now) old.now)) + old.now.log_size)) }
    {
        self.add(ledger.segment_id(old.pointer.lid()), old.log_size);
    }

    // The sums of these old entries.
    pub fn sum_up(&mut self, ledger: &Ledger, olds: &[CacheInfo])
        requires size { 0 < ledger.now.segment_size }
        requires few { length olds.now ≤ 256 }
        requires small { every (λ old. not (too_large old.log_size)) olds.now ≡ true }
        ensures { pairs (held self.new.rows) ≡ sums_of (books_of ledger.now) olds.now }
    {
        self.clear();
        for old in olds {
            self.add_old(ledger, old);
        }
    }
}
