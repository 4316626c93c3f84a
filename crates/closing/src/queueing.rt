// Queueing the pages of a segment, each row in its place.
ghost use Rattle.std.specs.Prelude.{◌≡◌, ◌<◌, true, length, slice_index_or, slice_set};
ghost use Rattle.table.specs.Held.{held};
ghost use Rattle.rules.specs.Pages.{all_queued};
ghost use Rattle.closing.specs.Queued.{queued_if};

use ranges::first_part_bounds;
use segment::{PageRow, SegmentId};
use table::{Key, Row, Table};

// Writes over the row at place i by one with the same key.
fn write_at<R: Row, const LIMIT: usize>(table: &mut Table<R, LIMIT>, i: usize, row: R)
    requires there { i < length (held table.old) }
    requires same { R.Row.keyed (slice_index_or (held table.old) i row) ≡ R.Row.keyed row }
    ensures { held table.new ≡ slice_set (held table.old) i row }
{
    let _ = table.insert(row);
}

// The page at place i is queued, unless it has left.
fn queue_at<const LIMIT: usize>(pages: &mut Table<PageRow, LIMIT>, i: usize)
    requires { i < length (held pages.old) }
    ensures { (d : PageRow) → held pages.new ≡ slice_set (held pages.old) i (queued_if (slice_index_or (held pages.old) i d)) }
{
    let row = pages.rows()[i];
    if !row.left {
        write_at(
            pages,
            i,
            PageRow {
                queued: true,
                ..row
            },
        );
    }
}

// The pages of segment n that have not left are queued. By place: a table lends no rows to write, since a
// write could break their order.
pub fn queue_all<const LIMIT: usize>(pages: &mut Table<PageRow, LIMIT>, n: SegmentId)
    ensures { held pages.new ≡ all_queued n (held pages.old) }
{
    let (start, end) = first_part_bounds(pages.rows(), n);
    for i in start..end {
        queue_at(pages, i);
    }
}
