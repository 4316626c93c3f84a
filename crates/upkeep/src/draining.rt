// A segment starts draining, and becomes Free once none of its pages is left.
ghost use Rattle.std.specs.Prelude.{◌≡◌, ◌^◌, ◌<◌, ◌≤◌, true, length};
ghost use Rattle.segment.specs.Changes.{drained, emptied};
ghost use Rattle.segment.specs.declared.state.Inactive.{Inactive as InactiveRecord};
ghost use Rattle.segment.specs.declared.state.Draining.{Draining as DrainingRecord};
ghost use Rattle.segment.specs.declared.state.State.TheVariants as is;
ghost use Rattle.rules.specs.Books.{state_of};
ghost use Rattle.rules.specs.Cleaning.{half_empty, start_draining, drain_if_empty, is_active, holder, emptied_at, held_by};
ghost use Rattle.rules.specs.Stabilizing.{is_inactive};
ghost use Rattle.orders.specs.Within.{KeptWithin};
ghost use Rattle.ledger.specs.Ledgers.{books_of};
ghost use Rattle.upkeep.specs.Drains.{is_drained, all_left};

use closing::queue_all;
use ledger::{Ledger, put};
use segment::{FreeableRow, Inactive, Lsn, Segment, SegmentId, State};

const SEGMENT_CLEANUP_THRESHOLD: u64 = 50;

// The segment, Draining if it was Inactive.
fn drain_segment(segment: Segment) -> Segment
    ensures { (i : InactiveRecord) → segment.state ≡ is.Inactive i → result.state ≡ is.Draining (drained i) }
{
    match segment.state {
        State::Inactive(inactive) => Segment {
            state: State::Draining(inactive.drain()),
        },
        state => Segment { state },
    }
}

// Segment n, which is Inactive, becomes Draining, its pages are queued and its offset is listed.
pub(crate) fn start_draining(ledger: &mut Ledger, n: SegmentId)
    requires kept { KeptWithin (books_of ledger.old) }
    requires inactive { is_inactive (state_of (books_of ledger.old) n) ≡ true }
    ensures { (i : InactiveRecord) → state_of (books_of ledger.old) n ≡ is.Inactive i → books_of ledger.new ≡ start_draining n i (books_of ledger.old) }
{
    let segment = drain_segment(ledger.segments.take_out(n));
    ledger.segments.write(n, segment);
    queue_all(&mut ledger.pages, n);
    put(&mut ledger.listed, n * ledger.segment_size);
}

// At most half of the segment is live.
fn is_half_empty(inactive: &Inactive, segment_size: u64) -> bool
    requires size { 0 < segment_size }
    requires bytes { inactive.now.rss ≤ 2 ^ 40 }
    ensures { result ≡ half_empty segment_size inactive.now }
{
    inactive.rss * 100 / segment_size <= SEGMENT_CLEANUP_THRESHOLD
}

// Whether segment n is Inactive and at most half of it is live.
fn is_drained(ledger: &Ledger, n: SegmentId) -> bool
    requires { KeptWithin (books_of ledger.now) }
    ensures { result ≡ is_drained ledger.now.segment_size (state_of (books_of ledger.now) n) }
{
    matches!(
        ledger.state(n),
        Some(State::Inactive(inactive)) if is_half_empty(inactive, ledger.segment_size)
    )
}

// Segment n starts draining if it is Inactive and at most half of it is live.
pub(crate) fn drain_if_empty(ledger: &mut Ledger, n: SegmentId)
    requires { KeptWithin (books_of ledger.old) }
    ensures { books_of ledger.new ≡ drain_if_empty n (books_of ledger.old) }
{
    if is_drained(ledger, n) {
        start_draining(ledger, n);
    }
}

// Of segment n, if it is Draining and its pages have all left, the LSN of its latest replacement.
pub(crate) fn all_left(ledger: &Ledger, n: SegmentId) -> Option<Lsn>
    ensures { result ≡ all_left (state_of (books_of ledger.now) n) }
{
    match ledger.state(n) {
        Some(State::Draining(draining)) if draining.replaced_pids == draining.max_pids => {
            Some(draining.latest_replacement_lsn)
        }
        _ => None,
    }
}

// Whether segment n is Active.
pub(crate) fn is_active_at(ledger: &Ledger, n: SegmentId) -> bool
    ensures { result ≡ is_active (state_of (books_of ledger.now) n) }
{
    matches!(ledger.state(n), Some(State::Active(_)))
}

// The Active segment that the ordering has under this LSN.
pub(crate) fn holder(ledger: &Ledger, lsn: Lsn) -> Option<SegmentId>
    requires { 0 < ledger.now.segment_size }
    ensures { result ≡ holder (books_of ledger.now) lsn }
{
    let row = ledger.ordering.get(lsn)?;
    let n = ledger.segment_id(row.offset);
    is_active_at(ledger, n).then_some(n)
}

// The segment, which is Draining, becomes Free. Answers it with the LSN that it had.
fn empty_segment(segment: Segment) -> (Segment, Lsn)
    requires { (d : DrainingRecord) × (segment.state ≡ is.Draining d) }
    ensures { (d : DrainingRecord) → segment.state ≡ is.Draining d → (result.0.state ≡ is.Free (emptied d)) × (result.1 ≡ d.lsn) }
{
    let State::Draining(draining) = segment.state else {
        unreachable!()
    };
    let lsn = draining.lsn;
    let state = State::Free(draining.free());
    (Segment { state }, lsn)
}

// Segment n, which is Draining, becomes Free. Answers the LSN that it had.
pub(crate) fn empty(ledger: &mut Ledger, n: SegmentId) -> Lsn
    requires reached { n < length (books_of ledger.old).segments }
    requires draining { (d : DrainingRecord) × (state_of (books_of ledger.old) n ≡ is.Draining d) }
    ensures { (d : DrainingRecord) → state_of (books_of ledger.old) n ≡ is.Draining d → (books_of ledger.new ≡ emptied_at n d (books_of ledger.old)) × (result ≡ d.lsn) }
{
    let (segment, lsn) = empty_segment(ledger.segments.take_out(n));
    ledger.segments.write(n, segment);
    lsn
}

// Segment t holds back the segment with this LSN.
pub(crate) fn hold(ledger: &mut Ledger, t: SegmentId, lsn: Lsn)
    requires { length (held_by t lsn (books_of ledger.old)).freeable ≤ 256 }
    ensures { books_of ledger.new ≡ held_by t lsn (books_of ledger.old) }
{
    put(&mut ledger.freeable, FreeableRow { segment: t, lsn });
}
