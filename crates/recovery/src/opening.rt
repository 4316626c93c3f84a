// Segments become Active, at the base of an LSN.
ghost use Rattle.std.specs.Prelude.{◌≡◌, ◌/◌, ◌<◌, false, length, slice_index_or, slice_set};
ghost use Rattle.rules.specs.Books.{unused};
ghost use Rattle.rules.specs.Links.{out_of_range};
ghost use Rattle.rules.specs.Starting.{with_active, opened_at, opened_for, row_segment};
ghost use Rattle.ledger.specs.Ledgers.{books_of};
ghost use Rattle.ledger.specs.States.{states_of};
ghost use Rattle.recovery.specs.Begun.{first_opened};
ghost use Rattle.recovery.specs.Plans.{Reaches};

use ledger::{Ledger, Segments};
use segment::{Free, LogOffset, Lsn, Segment, SegmentId, SnapshotRow, State, base};

// The segment, which becomes Active unless it is.
fn opened(segment: Segment, base: Lsn) -> Segment
    ensures { result.state ≡ opened_at base segment.state }
{
    let state = match segment.state {
        State::Free(free) => State::Active(free.activate(base)),
        other => other,
    };
    Segment { state }
}

// Segment n becomes Active unless it is.
fn open_at(segments: &mut Segments, n: SegmentId, base: Lsn)
    requires { n < length (states_of segments.old) }
    ensures { states_of segments.new ≡ slice_set (states_of segments.old) n (opened_at base (slice_index_or (states_of segments.old) n unused)) }
{
    let segment = segments.take_out(n);
    segments.write(n, opened(segment, base));
}

// The segment of a row becomes Active unless it is.
pub fn open_for(ledger: &mut Ledger, row: &SnapshotRow)
    requires size { 0 < ledger.old.segment_size }
    requires lsn { out_of_range row.now.lsn ≡ false }
    requires reached { row_segment (books_of ledger.old) row.now < length (books_of ledger.old).segments }
    ensures { books_of ledger.new ≡ opened_for row.now (books_of ledger.old) }
{
    let n = ledger.segment_id(row.pointer.lid());
    let base = base(row.lsn, ledger.segment_size);
    open_at(&mut ledger.segments, n, base);
}

// The segment of the active offset becomes Active.
fn open_first(segments: &mut Segments, segment_size: u64, active: Option<LogOffset>, base: Lsn)
    requires size { 0 < segment_size }
    requires reached { Reaches segment_size active (length (states_of segments.old)) }
    ensures { states_of segments.new ≡ first_opened segment_size active base (states_of segments.old) }
{
    if let Some(offset) = active {
        let state = State::Active(Free { previous_lsn: None }.activate(base));
        segments.write(offset / segment_size, Segment { state });
    }
}

pub fn open_active(ledger: &mut Ledger, active: Option<LogOffset>, lsn: Lsn)
    requires size { 0 < ledger.old.segment_size }
    requires lsn { out_of_range lsn ≡ false }
    requires reached { Reaches ledger.old.segment_size active (length (books_of ledger.old).segments) }
    ensures { books_of ledger.new ≡ with_active active lsn (books_of ledger.old) }
{
    let base = base(lsn, ledger.segment_size);
    open_first(&mut ledger.segments, ledger.segment_size, active, base);
}
