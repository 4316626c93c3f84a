// What a row of a snapshot is refused for, its segment being open for it.
ghost use Rattle.std.specs.Prelude.{◌≡◌, ◌<◌, true, false, length};
ghost use Rattle.segment.specs.Bounds.{bounded};
ghost use Rattle.rules.specs.Links.{out_of_range, page_rows_full};
ghost use Rattle.rules.specs.Starting.{has_base, bytes_in, row_size, row_segment, placed_refusal};
ghost use Rattle.ledger.specs.Ledgers.{books_of};
ghost use Rattle.ledger.specs.Verdicts.{verdict};
ghost use Rattle.recovery.specs.Placing.{state_refusal, opened_refusal};

use ledger::{Ledger, MAX_LINKED, MAX_PAGE_ROWS, MAX_SIZE};
use rules::Refusal;
use segment::{Lsn, PageId, RowKind, SegmentId, SnapshotRow, State, base};

// The bytes of a row: a free page takes a header.
pub fn row_size(header_len: u64, row: &SnapshotRow) -> u64
    ensures { result ≡ row_size header_len row.now }
{
    if row.row_kind() == Some(RowKind::Free) {
        header_len
    } else {
        row.size
    }
}

fn has_base(state: &State, base: Lsn) -> bool
    ensures { result ≡ has_base base state.now }
{
    matches!(state, State::Active(active) if active.is_at(base))
}

fn bytes_in(state: &State) -> u64
    ensures { result ≡ bytes_in state.now }
{
    match state {
        State::Active(active) => active.rss,
        _ => 0,
    }
}

// What so many bytes at this base are refused for in a segment of this state.
fn check_state(state: &State, base: Lsn, size: u64) -> Result<(), Refusal>
    requires { bounded state.now ≡ true }
    ensures { result ≡ verdict (state_refusal base size state.now) }
{
    if !has_base(state, base) {
        return Err(Refusal::RowBase);
    }
    if size > MAX_SIZE {
        return Err(Refusal::TooLarge);
    }
    if bytes_in(state) + size > MAX_LINKED {
        return Err(Refusal::TooLarge);
    }
    Ok(())
}

// Whether one more page row is wanted and there is no room for it.
fn page_rows_full(ledger: &Ledger, n: SegmentId, page: PageId) -> bool
    ensures { result ≡ page_rows_full (books_of ledger.now) n page }
{
    ledger.pages.get((n, page)).is_none() && ledger.pages.len() >= MAX_PAGE_ROWS
}

// What the segment of a row, being open for it, refuses the row for.
fn check_opened(ledger: &Ledger, header_len: u64, row: &SnapshotRow) -> Result<(), Refusal>
    requires size { 0 < ledger.now.segment_size }
    requires lsn { out_of_range row.now.lsn ≡ false }
    requires reached { row_segment (books_of ledger.now) row.now < length (books_of ledger.now).segments }
    ensures { result ≡ verdict (opened_refusal header_len row.now (books_of ledger.now)) }
{
    let n = ledger.segment_id(row.pointer.lid());
    let base = base(row.lsn, ledger.segment_size);
    let size = row_size(header_len, row);
    check_state(&ledger.segments.at(n).state, base, size)
}

// What a row of the page is refused for, its segment being open for it.
pub fn check_placed(
    ledger: &Ledger,
    header_len: u64,
    page: PageId,
    row: &SnapshotRow,
) -> Result<(), Refusal>
    requires size { 0 < ledger.now.segment_size }
    requires lsn { out_of_range row.now.lsn ≡ false }
    requires reached { row_segment (books_of ledger.now) row.now < length (books_of ledger.now).segments }
    ensures { result ≡ verdict (placed_refusal header_len page row.now (books_of ledger.now)) }
{
    check_opened(ledger, header_len, row)?;
    if page_rows_full(ledger, ledger.segment_id(row.pointer.lid()), page) {
        return Err(Refusal::PageRowsFull);
    }
    Ok(())
}
