// The old segments of a replacement, checked as if the new entry were linked already.
ghost use Rattle.std.specs.Prelude.{◌≡◌, ◌<◌, ◌≤◌, true, None};
ghost use Rattle.table.specs.Held.{held};
ghost use Rattle.segment.specs.Bounds.{bounded};
ghost use Rattle.rules.specs.Books.{state_of};
ghost use Rattle.rules.specs.Links.{link_of, link_refusal, linked_state};
ghost use Rattle.rules.specs.Pages.{page_row, is_lying};
ghost use Rattle.rules.specs.Replacing.{from_state, olds_refusal};
ghost use Rattle.ledger.specs.Ledgers.{books_of};
ghost use Rattle.ledger.specs.Verdicts.{verdict};
ghost use Rattle.entries.specs.Olds.{from_lying, from_seen};
ghost use Rattle.entries.specs.Sums.{pairs};

use crate::sums::SumRow;
use ledger::{Ledger, MAX_PAGE_ROWS};
use rules::Refusal;
use segment::{CacheInfo, Lsn, PageId, PageRow, SegmentId, State};
use table::Table;

// Whether the page has a row in segment n, and has not left.
fn is_lying(pages: &Table<PageRow, MAX_PAGE_ROWS>, n: SegmentId, page: PageId) -> bool
    ensures { result ≡ is_lying (page_row (held pages.now) n page) }
{
    pages.get((n, page)).is_some_and(|row| !row.left)
}

fn check_lying(base: Lsn, lsn: Lsn, lies: bool, more: bool) -> Result<(), Refusal>
    ensures { result ≡ verdict (from_lying base lsn lies more) }
{
    if base < lsn {
        return Err(Refusal::BaseTooLow);
    }
    if !lies {
        return Err(Refusal::PageAbsent);
    }
    if more {
        return Err(Refusal::MoreThanLive);
    }
    Ok(())
}

// Why so many bytes of a page may not be replaced in a segment of this state, in which others are linked as well.
fn check_old(state: &State, lies: bool, base: Lsn, size: u64, linked: u64) -> Result<(), Refusal>
    requires kept { bounded state.now ≡ true }
    requires small { linked ≤ 4294967295 }
    ensures { result ≡ verdict (from_seen base size lies (linked_state linked state.now)) }
{
    match state {
        State::Free(_) => Err(Refusal::NoSegment),
        State::Active(a) => {
            let live = a.rss + linked - a.deferred_replaced_rss;
            check_lying(base, a.lsn, lies, live < size)
        }
        State::Inactive(i) => check_lying(base, i.lsn, lies, i.rss < size),
        State::Draining(d) => check_lying(base, d.lsn, lies, false),
    }
}

// Why the page may not be replaced in one old segment. In the new entry's own segment it lies, with the new bytes.
fn check_at(
    ledger: &Ledger,
    page: PageId,
    base: Lsn,
    old: &SumRow,
    new: &CacheInfo,
) -> Result<(), Refusal>
    requires size { 0 < ledger.now.segment_size }
    requires accepted { link_refusal (books_of ledger.now) page new.now ≡ None }
    ensures { result ≡ verdict (from_state (link_of page new.now (books_of ledger.now)) old.now.segment page base old.now.size (state_of (link_of page new.now (books_of ledger.now)) old.now.segment)) }
{
    let Some(segment) = ledger.segments.get(old.segment) else {
        return Err(Refusal::NoSegment);
    };
    if old.segment == ledger.segment_id(new.pointer.lid()) {
        return check_old(&segment.state, true, base, old.size, new.log_size);
    }
    let lies = is_lying(&ledger.pages, old.segment, page);
    check_old(&segment.state, lies, base, old.size, 0)
}

// Why the page may not be replaced in the old segments, from the lowest on.
pub fn check_olds(
    ledger: &Ledger,
    page: PageId,
    base: Lsn,
    olds: &[SumRow],
    new: &CacheInfo,
) -> Result<(), Refusal>
    requires size { 0 < ledger.now.segment_size }
    requires accepted { link_refusal (books_of ledger.now) page new.now ≡ None }
    ensures { result ≡ verdict (olds_refusal (link_of page new.now (books_of ledger.now)) page base (pairs olds.now)) }
{
    for old in olds {
        check_at(ledger, page, base, old, new)?;
    }
    Ok(())
}
