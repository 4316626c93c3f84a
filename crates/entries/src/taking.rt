// A page is replaced in an old segment.
ghost use Rattle.std.specs.Prelude.{◌≡◌, ◌<◌, true, length, if◌then◌else◌, None};
ghost use Rattle.table.specs.Held.{held};
ghost use Rattle.rules.specs.Books.{state_of};
ghost use Rattle.rules.specs.Pages.{page_row, marked};
ghost use Rattle.rules.specs.Replacing.{from_state, taken_at};
ghost use Rattle.orders.specs.Counts.{Counts};
ghost use Rattle.ledger.specs.Ledgers.{books_of};

use ledger::{Ledger, MAX_PAGE_ROWS, put};
use segment::{Lsn, PageId, PageRow, SegmentId};
use table::Table;

// Marks the page as left, if it has a row in the segment.
fn mark_left(pages: &mut Table<PageRow, MAX_PAGE_ROWS>, n: SegmentId, page: PageId)
    ensures { held pages.new ≡ marked (held pages.old) (page_row (held pages.old) n page) }
{
    if let Some(row) = pages.get((n, page)) {
        put(pages, PageRow { left: true, ..row });
    }
}

fn mark_if(pages: &mut Table<PageRow, MAX_PAGE_ROWS>, leaves: bool, n: SegmentId, page: PageId)
    ensures { held pages.new ≡ (if leaves then marked (held pages.old) (page_row (held pages.old) n page) else held pages.old) }
{
    if leaves {
        mark_left(pages, n, page);
    }
}

// A page, with so many bytes, is replaced in segment n from this base on. It leaves, unless its replacement lies there.
pub fn take_at(ledger: &mut Ledger, n: SegmentId, page: PageId, base: Lsn, size: u64)
    requires reached { n < length (books_of ledger.old).segments }
    requires passes { from_state (books_of ledger.old) n page base size (state_of (books_of ledger.old) n) ≡ None }
    requires counts { Counts (books_of ledger.old) }
    ensures { books_of ledger.new ≡ taken_at n page base size (books_of ledger.old) }
{
    let segment = ledger.segments.take_out(n);
    let (segment, leaves) = segment.remove_pid(base, size);
    ledger.segments.write(n, segment);
    mark_if(&mut ledger.pages, leaves, n, page);
}
