// The rows of a snapshot are recovered, page by page.
ghost use Rattle.std.specs.Prelude.{◌≡◌, ◌<◌, true, false, length, OnOk, slice_index_or};
ghost use Rattle.table.specs.Rows.{every};
ghost use Rattle.segment.specs.Pages.{no_entry};
ghost use Rattle.rules.specs.Links.{out_of_range};
ghost use Rattle.rules.specs.Starting.{covers, recover_row, recover_rows, recover_pages};
ghost use Rattle.ledger.specs.Ledgers.{books_of};
ghost use Rattle.recovery.specs.Outcomes.{outcome};
ghost use Rattle.recovery.specs.Plans.{in_range, rows_at};
ghost use Rattle.recovery.specs.Recoverable.{Recoverable};

use crate::opening::open_for;
use crate::placing::{check_placed, row_size};
use crate::plan::Plan;
use ledger::Ledger;
use rules::Refusal;
use segment::{PageId, SnapshotRow, page_rows};

// A row of the page is recovered: its segment becomes Active unless it is, and the row is linked there.
pub fn recover_row(
    ledger: &mut Ledger,
    header_len: u64,
    page: PageId,
    row: &SnapshotRow,
) -> Result<(), Refusal>
    requires kept { Recoverable (books_of ledger.old) }
    requires lsn { out_of_range row.now.lsn ≡ false }
    ensures books { outcome result (books_of ledger.new) ≡ recover_row header_len page row.now (books_of ledger.old) }
    ensures kept { OnOk result (Recoverable (books_of ledger.new)) }
{
    let n = ledger.segment_id(row.pointer.lid());
    if n >= ledger.segments.len() as u64 {
        return Err(Refusal::PastSegments);
    }
    open_for(ledger, row);
    check_placed(ledger, header_len, page, row)?;
    ledger.link_at(n, page, row_size(header_len, row));
    Ok(())
}

// The rows of one page are recovered in turn.
fn recover_rows(
    ledger: &mut Ledger,
    header_len: u64,
    page: PageId,
    rows: &[SnapshotRow],
) -> Result<(), Refusal>
    requires kept { Recoverable (books_of ledger.old) }
    requires lsns { every in_range rows.now ≡ true }
    ensures books { outcome result (books_of ledger.new) ≡ recover_rows header_len page rows.now (books_of ledger.old) }
    ensures kept { OnOk result (Recoverable (books_of ledger.new)) }
{
    for row in rows {
        recover_row(ledger, header_len, page, row)?;
    }
    Ok(())
}

// The rows of one page, which the directory leads to, are recovered.
fn recover_page(ledger: &mut Ledger, plan: &Plan<'_>, page: usize) -> Result<(), Refusal>
    requires kept { Recoverable (books_of ledger.old) }
    requires lsns { every in_range plan.now.snapshot.rows.now ≡ true }
    requires covered { covers 0 plan.now.snapshot.directory.now (length plan.now.snapshot.rows.now) ≡ true }
    requires listed { page < length plan.now.snapshot.directory.now }
    ensures books { outcome result (books_of ledger.new) ≡ recover_rows plan.now.header_len page (rows_at (slice_index_or plan.now.snapshot.directory.now page no_entry) plan.now.snapshot.rows.now) (books_of ledger.old) }
    ensures kept { OnOk result (Recoverable (books_of ledger.new)) }
{
    match page_rows(plan.snapshot.directory, plan.snapshot.rows, page) {
        Some(part) => recover_rows(ledger, plan.header_len, page as PageId, part),
        None => Ok(()),
    }
}

// All pages are recovered in turn. By number, which is the page's name.
pub fn recover_pages(ledger: &mut Ledger, plan: &Plan<'_>) -> Result<(), Refusal>
    requires kept { Recoverable (books_of ledger.old) }
    requires lsns { every in_range plan.now.snapshot.rows.now ≡ true }
    requires covered { covers 0 plan.now.snapshot.directory.now (length plan.now.snapshot.rows.now) ≡ true }
    ensures books { outcome result (books_of ledger.new) ≡ recover_pages plan.now.header_len 0 plan.now.snapshot.directory.now plan.now.snapshot.rows.now (books_of ledger.old) }
    ensures kept { OnOk result (Recoverable (books_of ledger.new)) }
{
    for page in 0..plan.snapshot.directory.len() {
        recover_page(ledger, plan, page)?;
    }
    Ok(())
}
