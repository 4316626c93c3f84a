// A segment of the log file, by its state. Its bytes and counts stay within their bounds.
ghost use Rattle.std.specs.Prelude.{◌≡◌, true};
ghost use Rattle.segment.specs.Bounds.{bounded};

use crate::state::State;

mod methods;

#[derive(Drop)]
pub struct Segment {
    pub state: State,
    ghost kept: { bounded state ≡ true },
}
