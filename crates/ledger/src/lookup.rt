// Segments read by their numbers.
ghost use Rattle.std.specs.Prelude.{◌≡◌, ◌/◌, ◌<◌, ◌≤◌, length, MatchOption};
ghost use Rattle.rules.specs.Books.{state_of, segment_of, unused};
ghost use Rattle.ledger.specs.Ledgers.{books_of};
ghost use Rattle.ledger.specs.Settling.{lowest_fault};

use crate::ledger::Ledger;
use host::HostFault;
use segment::{LogOffset, SegmentId, State};

impl Ledger {
    // The number of the segment that an offset lies in.
    pub fn segment_id(&self, offset: LogOffset) -> SegmentId
        requires { 0 < self.now.segment_size }
        ensures { result ≡ segment_of (books_of self.now) offset }
    {
        offset / self.segment_size
    }

    // The lowest cut that the host refused.
    pub fn lowest_fault(&self) -> Option<HostFault>
        ensures { result ≡ lowest_fault (books_of self.now).faults }
    {
        let row = self.faults.first()?;
        Some(HostFault::from(row))
    }

    // The state of segment n, if it is reached.
    pub fn state(&self, n: SegmentId) -> Option<&State>
        ensures { MatchOption result ((length (books_of self.now).segments ≤ n) × (state_of (books_of self.now) n ≡ unused)) (λ s. (n < length (books_of self.now).segments) × (s.now ≡ state_of (books_of self.now) n)) }
    {
        let segment = self.segments.get(n)?;
        Some(&segment.state)
    }
}
