// Handing out a segment to the log, and naming the page to rewrite next.
ghost use Rattle.std.specs.Prelude.{◌≡◌, ◌+◌, ◌*◌, ◌^◌, ◌<◌, ◌≤◌, false, length, Ok, Err};
ghost use Rattle.table.specs.Held.{held};
ghost use Rattle.table.specs.Rows.{first_of};
ghost use Rattle.segment.specs.Changes.{opened};
ghost use Rattle.segment.specs.declared.state.State.TheVariants as is;
ghost use Rattle.rules.specs.HandingOut.{entered, rest_of, risen, handed_out, offered, next_at, first_listed, popped_from, popped};
ghost use Rattle.rules.specs.Books.{segment_of};
ghost use Rattle.rules.specs.Links.{out_of_range};
ghost use Rattle.rules.specs.Pages.{queue_of};
ghost use Rattle.orders.specs.Share.{Shared};
ghost use Rattle.orders.specs.Within.{KeptWithin};
ghost use Rattle.ledger.specs.Ledgers.{books_of};
ghost use Rattle.ledger.specs.States.{states_of};
ghost use Rattle.ledger.specs.Settling.{settled};

use crate::ledger::{Ledger, MAX_PAGE_ROWS, MAX_SEGMENTS};
use crate::room::put;
use crate::segments::Segments;
use host::HostFault;
use ranges::of_first;
use rules::Refusal;
use segment::{Free, LogOffset, Lsn, OrderingRow, PageId, PageRow, Segment, SegmentId, State};
use table::Table;

// Takes the least offset from the free list; the tip rises by a segment where there is none. Answers the tip.
fn leave(free: &mut Table<LogOffset, MAX_SEGMENTS>, tip: LogOffset, segment_size: u64) -> LogOffset
    requires { tip + segment_size < 2 ^ 64 }
    ensures rows { held free.new ≡ rest_of (held free.old) }
    ensures tip { result ≡ risen (held free.old) tip segment_size }
{
    match free.first() {
        Some(offset) => {
            free.remove(offset);
            tip
        }
        None => tip + segment_size,
    }
}

// Segment n becomes Active; one that was not reached before is reached.
fn enter(segments: &mut Segments, n: SegmentId, lsn: Lsn)
    requires { length (entered n (is.Active (opened lsn)) (states_of segments.old)) ≤ 256 }
    ensures { states_of segments.new ≡ entered n (is.Active (opened lsn)) (states_of segments.old) }
{
    let free = Free { previous_lsn: None };
    let segment = Segment {
        state: State::Active(free.activate(lsn)),
    };
    if n < segments.len() as u64 {
        segments.write(n, segment);
    } else {
        segments.push(segment);
    }
}

// The first queued page of segment n.
fn first_queued(pages: &Table<PageRow, MAX_PAGE_ROWS>, n: SegmentId) -> Option<PageRow>
    ensures { result ≡ first_of (queue_of n (held pages.now)) }
{
    of_first(pages, n).iter().find(|row| row.queued).copied()
}

impl Ledger {
    // The remembered faults are forgotten, and the lowest is told.
    fn settle(&mut self) -> Result<(), HostFault>
        ensures { (result, books_of self.new) ≡ settled (books_of self.old).faults (books_of self.old) }
    {
        let fault = self.lowest_fault();
        self.faults.clear();
        match fault {
            None => Ok(()),
            Some(fault) => Err(fault),
        }
    }

    // The offset to hand out: the least free one, or the tip.
    fn offered(&mut self) -> Result<LogOffset, Refusal>
        requires { 256 * self.old.segment_size < 2 ^ 64 }
        ensures { (result, books_of self.new) ≡ offered (books_of self.old) (books_of self.old).free }
    {
        if let Some(offset) = self.free.first() {
            return Ok(offset);
        }
        self.settle()?;
        if self.tip >= 256 * self.segment_size {
            return Err(Refusal::FileFull);
        }
        Ok(self.tip)
    }

    // The segment whose pages are rewritten first.
    pub fn first_listed(&self) -> Option<LogOffset>
        ensures { result ≡ first_listed (books_of self.now) }
    {
        self.listed.first()
    }

    // The segment at the offset that was offered becomes Active, and enters the ordering.
    fn hand_out(&mut self, lsn: Lsn, offset: LogOffset)
        requires size { 0 < self.old.segment_size }
        requires fits { self.old.tip + self.old.segment_size < 2 ^ 64 }
        requires reached { length (handed_out lsn offset (books_of self.old)).segments ≤ 256 }
        requires room { length (handed_out lsn offset (books_of self.old)).ordering ≤ 256 }
        ensures { books_of self.new ≡ handed_out lsn offset (books_of self.old) }
    {
        let n = self.segment_id(offset);
        enter(&mut self.segments, n, lsn);
        self.tip = leave(&mut self.free, self.tip, self.segment_size);
        put(&mut self.ordering, OrderingRow { lsn, offset });
    }

    // A segment for the log from this LSN on.
    pub fn next_at(&mut self, lsn: Lsn) -> Result<LogOffset, Refusal>
        requires lsn { out_of_range lsn ≡ false }
        requires kept { Shared (books_of self.old) }
        ensures { (result, books_of self.new) ≡ next_at lsn (books_of self.old) }
    {
        let at = lsn.unsigned_abs();
        if at % self.segment_size != 0 {
            return Err(Refusal::Unaligned);
        }
        if self.ordering.get(lsn).is_some() {
            return Err(Refusal::LsnInUse);
        }
        let offset = self.offered()?;
        if at < offset {
            return Err(Refusal::BelowOffset);
        }
        self.hand_out(lsn, offset);
        Ok(offset)
    }

    // The lowest queued page of the segment at this offset; the segment is unlisted where no page is queued.
    fn pop_from(&mut self, offset: LogOffset) -> Option<(PageId, LogOffset)>
        requires { 0 < self.old.segment_size }
        ensures { (result, books_of self.new) ≡ popped_from offset (queue_of (segment_of (books_of self.old) offset) (books_of self.old).pages) (books_of self.old) }
    {
        match first_queued(&self.pages, self.segment_id(offset)) {
            None => {
                self.listed.remove(offset);
                None
            }
            Some(row) => {
                put(
                    &mut self.pages,
                    PageRow {
                        queued: false,
                        ..row
                    },
                );
                Some((row.page, offset))
            }
        }
    }

    // The next page to rewrite, with the offset of the segment that it has to leave.
    pub fn pop_page(&mut self) -> Option<(PageId, LogOffset)>
        requires { KeptWithin (books_of self.old) }
        ensures { (result, books_of self.new) ≡ popped (books_of self.old) }
    {
        let offset = self.first_listed()?;
        self.pop_from(offset)
    }
}
