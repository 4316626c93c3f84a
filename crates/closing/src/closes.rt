// Closing a segment: it becomes Inactive, and its blob rows go.
ghost use Rattle.std.specs.Prelude.{◌≡◌, ◌<◌, ◌≤◌, true, length};
ghost use Rattle.std.specs.Ordering.{int_cmp};
ghost use Rattle.table.specs.Held.{held};
ghost use Rattle.table.specs.Ranges.{floored, least_signed};
ghost use Rattle.segment.specs.Rows.{blob_key};
ghost use Rattle.segment.specs.Changes.{closed};
ghost use Rattle.segment.specs.declared.state.Active.{Active};
ghost use Rattle.segment.specs.declared.state.State.TheVariants as is;
ghost use Rattle.rules.specs.Books.{with_blobs, state_of};
ghost use Rattle.rules.specs.Stabilizing.{blobs_of, blobs_off, closed_at};
ghost use Rattle.ledger.specs.Ledgers.{books_of};

use crate::counts::{left_count, page_count};
use ledger::{Ledger, are_floored};
use ranges::{of_first, remove_of_first};
use segment::{BlobRow, Segment, SegmentId, State};
use table::Table;

// The segment, Inactive if it was Active.
fn shut(segment: Segment, max_pids: u64, replaced_pids: u64) -> Segment
    requires { replaced_pids ≤ max_pids }
    ensures { (a : Active) → segment.state ≡ is.Active a → result.state ≡ is.Inactive (closed max_pids replaced_pids a) }
{
    match segment.state {
        State::Active(active) => Segment {
            state: State::Inactive(active.deactivate(max_pids, replaced_pids)),
        },
        other => Segment { state: other },
    }
}

// Segment n, which is Active, becomes Inactive.
pub fn close_at(ledger: &mut Ledger, n: SegmentId)
    requires { n < length (books_of ledger.old).segments }
    ensures { (a : Active) → state_of (books_of ledger.old) n ≡ is.Active a → books_of ledger.new ≡ closed_at n a (books_of ledger.old) }
{
    let max_pids = page_count(&ledger.pages, n);
    let replaced_pids = left_count(&ledger.pages, n);
    let segment = ledger.segments.take_out(n);
    ledger
        .segments
        .write(n, shut(segment, max_pids, replaced_pids));
}

// The blob rows of segment n.
pub fn blobs_of(ledger: &Ledger, n: SegmentId) -> &[BlobRow]
    ensures { result.now ≡ blobs_of n (held ledger.now.blobs) }
{
    of_first(&ledger.blobs, n)
}

// The rows of segment n go.
fn without_blobs<const LIMIT: usize>(blobs: &mut Table<BlobRow, LIMIT>, n: SegmentId)
    ensures rows { held blobs.new ≡ blobs_off n (held blobs.old) }
    ensures floor { floored blob_key int_cmp (held blobs.new) least_signed ≡ true }
{
    remove_of_first(blobs, n);
    are_floored(blobs.rows());
}

// The blob rows of segment n go.
pub fn drop_blobs(ledger: &mut Ledger, n: SegmentId)
    ensures { books_of ledger.new ≡ with_blobs (blobs_off n (held ledger.old.blobs)) (books_of ledger.old) }
{
    without_blobs(&mut ledger.blobs, n);
}
