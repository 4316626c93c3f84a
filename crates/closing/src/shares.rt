// Draining by share: where much is free, the last closed segment is drained too.
ghost use Rattle.std.specs.Prelude.{◌≡◌, ◌+◌, ◌^◌, ◌<◌, ◌≤◌, length, filter};
ghost use Rattle.rules.specs.Stabilizing.{free_below_tip, inactive_count, is_inactive, much_is_free};
ghost use Rattle.ledger.specs.Ledgers.{books_of};
ghost use Rattle.ledger.specs.States.{states};
ghost use Rattle.closing.specs.Shares.{number_from, Drains};

use ledger::Ledger;
use segment::{Segment, SegmentId, State};

fn is_inactive(state: &State) -> bool
    ensures { result ≡ is_inactive state.now }
{
    matches!(state, State::Inactive(_))
}

// How many of the segments are Inactive.
fn inactive_in(segments: &[Segment]) -> u64
    ensures value { result ≡ length (filter is_inactive (states segments.now)) }
    ensures most { result ≤ length segments.now }
{
    segments
        .iter()
        .filter(|segment| is_inactive(&segment.state))
        .count() as u64
}

// The last of the segments that is Inactive.
fn last_in(segments: &[Segment]) -> Option<SegmentId>
    ensures { result ≡ number_from 0 (states segments.now) }
{
    segments
        .iter()
        .rposition(|segment| is_inactive(&segment.state))
        .map(|n| n as SegmentId)
}

pub fn inactive_count(ledger: &Ledger) -> u64
    ensures value { result ≡ inactive_count (books_of ledger.now) }
    ensures most { result ≤ length (books_of ledger.now).segments }
{
    inactive_in(ledger.segments.as_slice())
}

// The Inactive segment with the highest number.
pub fn last_inactive(ledger: &Ledger) -> Option<SegmentId>
    ensures { result ≡ number_from 0 (books_of ledger.now).segments }
{
    last_in(ledger.segments.as_slice())
}

// Whether at least half of the free and inactive segments are free, and more than five are inactive.
pub fn much_is_free(free: u64, inactive: u64) -> bool
    requires { (free < 2 ^ 32) × (inactive < 2 ^ 32) }
    ensures { result ≡ much_is_free free inactive }
{
    free * 100 / (1 + free + inactive) >= 50 && inactive > 5
}

// The segment that is drained by share, if one is. The Free segments below the tip are those on the free list and those held back.
pub fn share_drains(ledger: &Ledger) -> Option<SegmentId>
    requires few { length (books_of ledger.now).segments ≤ 256 }
    requires share { free_below_tip (books_of ledger.now) ≡ length (books_of ledger.now).free + length (books_of ledger.now).freeable }
    ensures { Drains (books_of ledger.now) result }
{
    let free = (ledger.free.len() + ledger.freeable.len()) as u64;
    if much_is_free(free, inactive_count(ledger)) {
        last_inactive(ledger)
    } else {
        None
    }
}
