// The segments reached: their states are read in place, and moved out and back to be changed.
ghost use Rattle.std.specs.Prelude.{◌≡◌, ◌<◌, ◌≤◌, [], ◌∷◌, ◌++◌, length, vec_capacity, MatchOption, IfOk, slice_index_or, slice_set};
ghost use Rattle.rules.specs.Books.{unused};

use segment::{Free, Segment, SegmentId, State};
use std::alloc::{AllocError, Global};
use std::mem;

// One for each segment reached, by number, in room for all that there may be.
#[derive(Drop)]
pub struct Segments {
    list: Vec<Segment>,
    ghost room: { 256 ≤ vec_capacity list },
}

impl Segments {
    ghost use Rattle.ledger.specs.States.{states, states_of, capacity_of};

    // None is reached yet.
    pub fn new(heap: Global) -> Result<Segments, AllocError>
        ensures { IfOk result (λ s. states_of s ≡ []) }
    {
        let list = Vec::with_capacity(heap, 256)?;
        Ok(Segments { list })
    }

    pub fn len(&self) -> usize
        ensures { result ≡ length (states_of self.now) }
    {
        self.list.len()
    }

    pub fn as_slice(&self) -> &[Segment]
        ensures { states result.now ≡ states_of self.now }
    {
        self.list.as_slice()
    }

    // Segment n, if it is reached.
    pub fn get(&self, n: SegmentId) -> Option<&Segment>
        ensures { MatchOption result ((length (states_of self.now) ≤ n) × (slice_index_or (states_of self.now) n unused ≡ unused)) (λ s. (n < length (states_of self.now)) × (s.now.state ≡ slice_index_or (states_of self.now) n unused)) }
    {
        self.list.get(n as usize)
    }

    // Segment n, which is reached.
    pub fn at(&self, n: SegmentId) -> &Segment
        requires { n < length (states_of self.now) }
        ensures { result.now.state ≡ slice_index_or (states_of self.now) n unused }
    {
        &self.list[n as usize]
    }

    // Moves segment n out; one that was never used is left in its place.
    pub fn take_out(&mut self, n: SegmentId) -> Segment
        requires { n < length (states_of self.old) }
        ensures state { result.state ≡ slice_index_or (states_of self.old) n unused }
        ensures states { states_of self.new ≡ slice_set (states_of self.old) n unused }
        ensures cap { capacity_of self.new ≡ capacity_of self.old }
    {
        mem::replace(
            &mut self.list[n as usize],
            Segment {
                state: State::Free(Free { previous_lsn: None }),
            },
        )
    }

    // Writes segment n.
    pub fn write(&mut self, n: SegmentId, segment: Segment)
        requires { n < length (states_of self.old) }
        ensures states { states_of self.new ≡ slice_set (states_of self.old) n segment.state }
        ensures cap { capacity_of self.new ≡ capacity_of self.old }
    {
        self.list[n as usize] = segment;
    }

    // One segment more is reached.
    pub fn push(&mut self, segment: Segment)
        requires { length (states_of self.old) < 256 }
        ensures states { states_of self.new ≡ states_of self.old ++ segment.state ∷ [] }
        ensures cap { capacity_of self.new ≡ capacity_of self.old }
    {
        self.list.push_reserved(segment);
    }

    // No segment is reached any more.
    pub fn clear(&mut self)
        ensures states { states_of self.new ≡ [] }
        ensures cap { capacity_of self.new ≡ capacity_of self.old }
    {
        self.list.clear();
    }
}
