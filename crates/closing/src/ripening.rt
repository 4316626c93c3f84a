// A list for the ordering rows that a stabilize deactivates. It is made once, with room for all.
ghost use Rattle.std.specs.Prelude.{◌≤◌, vec_capacity};

use segment::OrderingRow;

mod gathering;

pub use gathering::gather_ripe;

#[derive(Drop)]
pub struct Ripe {
    pub rows: Vec<OrderingRow>,
    ghost room: { 256 ≤ vec_capacity rows },
}
