// The books that a start begins with: so many segments, none of them used, and no row.
ghost use Rattle.std.specs.Prelude.{◌≡◌, ◌*◌, ◌^◌, ◌<◌, ◌≤◌, replicate, None};
ghost use Rattle.rules.specs.Books.{unused};
ghost use Rattle.rules.specs.Starting.{blank};
ghost use Rattle.ledger.specs.Ledgers.{books_of};
ghost use Rattle.ledger.specs.States.{states_of};
ghost use Rattle.recovery.specs.Begun.{emptied};
ghost use Rattle.recovery.specs.Plans.{sized};

use ledger::{Ledger, Segments};
use segment::{Free, Segment, State};

// A turn for each; nothing is read by its number.
fn fill_unused(segments: &mut Segments, count: u64)
    requires { count ≤ 256 }
    ensures { states_of segments.new ≡ replicate count unused }
{
    segments.clear();
    for _i in 0..count {
        segments.push(Segment {
            state: State::Free(Free { previous_lsn: None }),
        });
    }
}

// All rows go.
fn clear_tables(ledger: &mut Ledger)
    ensures { books_of ledger.new ≡ emptied (books_of ledger.old) }
{
    ledger.free.clear();
    ledger.ordering.clear();
    ledger.pages.clear();
    ledger.blobs.clear();
    ledger.freeable.clear();
    ledger.listed.clear();
    ledger.faults.clear();
}

// So many segments, none of them used.
pub fn blank(ledger: &mut Ledger, segment_size: u64, count: u64)
    requires few { count ≤ 256 }
    requires fits { count * segment_size < 2 ^ 64 }
    ensures { books_of ledger.new ≡ blank (sized segment_size None) count }
{
    clear_tables(ledger);
    ledger.segment_size = segment_size;
    ledger.tip = count * segment_size;
    ledger.max_stabilized_lsn = -1;
    fill_unused(&mut ledger.segments, count);
}
