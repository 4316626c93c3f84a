// Link: its checks.
ghost use Rattle.std.specs.Prelude.{◌≡◌, ◌<◌, ◌≤◌, true, false};
ghost use Rattle.segment.specs.Bases.{base_of};
ghost use Rattle.segment.specs.Bounds.{bounded};
ghost use Rattle.segment.specs.declared.state.State.TheVariants as is;
ghost use Rattle.rules.specs.Links.{out_of_range, into_active, into_closed, into_state, link_refusal};
ghost use Rattle.ledger.specs.Ledgers.{books_of};
ghost use Rattle.ledger.specs.Verdicts.{verdict};

use ledger::{Ledger, MAX_LINKED, MAX_PAGE_ROWS, MAX_SIZE};
use rules::Refusal;
use segment::{Active, CacheInfo, Lsn, PageId, PageRow, SegmentId, State, base};
use table::Table;

// Why an entry with this base may not go into an Active segment.
fn check_active(
    ledger: &Ledger,
    n: SegmentId,
    page: PageId,
    size: u64,
    base: Lsn,
    active: &Active,
) -> Result<(), Refusal>
    requires small { size ≤ 4294967295 }
    requires kept { bounded (is.Active active.now) ≡ true }
    ensures { result ≡ verdict (into_active (books_of ledger.now) n page size base active.now) }
{
    if active.lsn != base {
        return Err(Refusal::OtherBase);
    }
    let row = ledger.pages.get((n, page));
    if let Some(row) = row
        && row.left
    {
        return Err(Refusal::PageLeft);
    }
    if active.rss + size > MAX_LINKED {
        return Err(Refusal::TooLarge);
    }
    if row.is_none() && ledger.pages.len() >= MAX_PAGE_ROWS {
        return Err(Refusal::PageRowsFull);
    }
    Ok(())
}

// A segment that is no longer written takes no entry; one with another base is refused for that.
fn check_closed(lsn: Lsn, base: Lsn) -> Result<(), Refusal>
    ensures { result ≡ verdict (into_closed lsn base) }
{
    if lsn != base {
        return Err(Refusal::OtherBase);
    }
    Err(Refusal::NotActive)
}

fn check_state(
    ledger: &Ledger,
    n: SegmentId,
    page: PageId,
    info: &CacheInfo,
    state: &State,
) -> Result<(), Refusal>
    requires size { 0 < ledger.now.segment_size }
    requires range { out_of_range info.now.lsn ≡ false }
    requires small { info.now.log_size ≤ 4294967295 }
    requires kept { bounded state.now ≡ true }
    ensures { result ≡ verdict (into_state (books_of ledger.now) n page info.now.log_size (base_of ledger.now.segment_size info.now.lsn) state.now) }
{
    let base = base(info.lsn, ledger.segment_size);
    match state {
        State::Free(_) => Err(Refusal::NoSegment),
        State::Active(active) => check_active(ledger, n, page, info.log_size, base, active),
        State::Inactive(inactive) => check_closed(inactive.lsn, base),
        State::Draining(draining) => check_closed(draining.lsn, base),
    }
}

// Why an entry of this page may not be linked, from its size on.
pub fn check_link(ledger: &Ledger, page: PageId, info: &CacheInfo) -> Result<(), Refusal>
    requires size { 0 < ledger.now.segment_size }
    requires range { out_of_range info.now.lsn ≡ false }
    ensures { result ≡ verdict (link_refusal (books_of ledger.now) page info.now) }
{
    if info.log_size > MAX_SIZE {
        return Err(Refusal::TooLarge);
    }
    let n = ledger.segment_id(info.pointer.lid());
    let Some(segment) = ledger.segments.get(n) else {
        return Err(Refusal::NoSegment);
    };
    check_state(ledger, n, page, info, &segment.state)
}
