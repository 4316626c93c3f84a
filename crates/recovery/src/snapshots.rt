// The checks of a snapshot's rows and directory.
ghost use Rattle.std.specs.Prelude.{◌≡◌, ◌<◌, true, not, ◌||◌, length, slice_index_or};
ghost use Rattle.table.specs.Rows.{every};
ghost use Rattle.segment.specs.Pages.{no_entry};
ghost use Rattle.rules.specs.Starting.{stable_out_of_range, covers, forms_page};
ghost use Rattle.recovery.specs.Plans.{in_range};

use ledger::out_of_range;
use segment::{Lsn, PageEntry, SnapshotRow, page_rows, page_state};

// Whether the LSN of every row is in range.
fn rows_in_range(rows: &[SnapshotRow]) -> bool
    ensures { result ≡ every in_range rows.now }
{
    rows.iter().all(|row| !out_of_range(row.lsn))
}

// Whether the stable LSN or that of a row is out of range.
pub fn lsns_out_of_range(stable: Option<Lsn>, rows: &[SnapshotRow]) -> bool
    ensures { result ≡ (stable_out_of_range stable || not (every in_range rows.now)) }
{
    stable.is_some_and(|lsn| out_of_range(lsn)) || !rows_in_range(rows)
}

// Whether the entries cover so many rows in turn.
pub fn covers(directory: &[PageEntry], rows: usize) -> bool
    ensures { result ≡ covers 0 directory.now rows }
{
    let end = directory.iter().try_fold(0, |at: u64, entry| {
        if entry.first == at {
            at.checked_add(entry.count)
        } else {
            None
        }
    });
    end == Some(rows as u64)
}

// Whether the rows of a page, which the directory leads to, form one.
fn forms_page(directory: &[PageEntry], rows: &[SnapshotRow], page: usize) -> bool
    requires covered { covers 0 directory.now (length rows.now) ≡ true }
    requires listed { page < length directory.now }
    ensures { result ≡ forms_page rows.now (slice_index_or directory.now page no_entry) }
{
    page_rows(directory, rows, page).is_some_and(|part| page_state(part).is_some())
}

// Whether the rows of every page form one. By number, as the reader of pages takes it.
pub fn forms_pages(directory: &[PageEntry], rows: &[SnapshotRow]) -> bool
    requires { covers 0 directory.now (length rows.now) ≡ true }
    ensures { result ≡ every (forms_page rows.now) directory.now }
{
    (0..directory.len()).all(|page| forms_page(directory, rows, page))
}
