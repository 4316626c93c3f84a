// Entries that are written into a segment.
ghost use Rattle.std.specs.Prelude.{◌≡◌, ◌<◌, ◌≤◌, true, length};
ghost use Rattle.table.specs.Held.{held};
ghost use Rattle.segment.specs.Bounds.{bounded};
ghost use Rattle.rules.specs.Books.{state_of};
ghost use Rattle.rules.specs.Links.{linked_at, linked_state};
ghost use Rattle.rules.specs.Pages.{page_row, written};
ghost use Rattle.ledger.specs.Ledgers.{books_of};

use crate::ledger::{Ledger, MAX_PAGE_ROWS};
use crate::room::put;
use segment::{PageId, PageRow, Segment, SegmentId, State};
use table::Table;

// So many bytes more, if the segment is Active.
fn with_bytes(segment: Segment, size: u64) -> Segment
    requires { bounded (linked_state size segment.state) ≡ true }
    ensures { result.state ≡ linked_state size segment.state }
{
    match segment.state {
        State::Active(active) => Segment {
            state: State::Active(active.insert_pid(size)),
        },
        state => Segment { state },
    }
}

// The page gets a row in segment n if it has none there.
fn write_page(pages: &mut Table<PageRow, MAX_PAGE_ROWS>, n: SegmentId, page: PageId)
    requires { length (written n page (held pages.old) (page_row (held pages.old) n page)) ≤ 2048 }
    ensures { held pages.new ≡ written n page (held pages.old) (page_row (held pages.old) n page) }
{
    if pages.get((n, page)).is_none() {
        put(
            pages,
            PageRow {
                segment: n,
                page,
                left: false,
                queued: false,
            },
        );
    }
}

impl Ledger {
    // So many bytes of the page are written into segment n.
    pub fn link_at(&mut self, n: SegmentId, page: PageId, size: u64)
        requires reached { n < length (books_of self.old).segments }
        requires room { length (linked_at n page size (books_of self.old)).pages ≤ 2048 }
        requires bytes { bounded (linked_state size (state_of (books_of self.old) n)) ≡ true }
        ensures { books_of self.new ≡ linked_at n page size (books_of self.old) }
    {
        let segment = with_bytes(self.segments.take_out(n), size);
        self.segments.write(n, segment);
        write_page(&mut self.pages, n, page);
    }
}
