// What happens to a segment, whatever its state.
ghost use Rattle.std.specs.Prelude.{◌≡◌, true};
ghost use Rattle.segment.specs.Bounds.{may_take};
ghost use Rattle.segment.specs.Updates.{taken, leaves};

use super::Segment;
use crate::state::State;
use crate::types::Lsn;

impl Segment {
    // A page of this size is replaced, from this base on. Answers the segment after, and whether the page leaves it:
    // it stays where the replacement lies in the same segment. Both come of one match on the states: a rule of the project.
    pub fn remove_pid(self, base: Lsn, size: u64) -> (Segment, bool)
        requires { may_take size self.state ≡ true }
        ensures state { result.0.state ≡ taken base size self.state }
        ensures left { result.1 ≡ leaves base self.state }
    {
        let (state, left) = match self.state {
            State::Active(active) if active.is_at(base) => (
                State::Active(active.remove_pid(base, size)),
                false,
            ),
            State::Active(active) => (State::Active(active.remove_pid(base, size)), true),
            State::Inactive(inactive) => (State::Inactive(inactive.remove_pid(base, size)), true),
            State::Draining(draining) => (State::Draining(draining.remove_pid(base)), true),
            State::Free(free) => (State::Free(free), false),
        };
        (Segment { state }, left)
    }
}
