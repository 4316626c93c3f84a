// How many pages were written into a segment, and how many of them have left.
ghost use Rattle.std.specs.Prelude.{◌≡◌, ◌<◌, length, filter};
ghost use Rattle.table.specs.Held.{held};
ghost use Rattle.rules.specs.Pages.{page_count, left_count};

use ranges::of_first;
use segment::{PageRow, SegmentId};
use table::Table;

// How many rows are marked left.
fn left_in(rows: &[PageRow]) -> u64
    ensures { result ≡ length (filter (λ row. row.left) rows.now) }
{
    rows.iter().filter(|row| row.left).count() as u64
}

pub fn page_count<const LIMIT: usize>(pages: &Table<PageRow, LIMIT>, n: SegmentId) -> u64
    ensures { result ≡ page_count n (held pages.now) }
{
    of_first(pages, n).len() as u64
}

pub fn left_count<const LIMIT: usize>(pages: &Table<PageRow, LIMIT>, n: SegmentId) -> u64
    ensures { result ≡ left_count n (held pages.now) }
{
    left_in(of_first(pages, n))
}
