// Ranges of a table's rows, and what the edits of a table promise.
#![tactic(auto)]

mod first_parts;
mod places;
mod promises;
mod table_ranges;

pub use first_parts::{first_part_bounds, of_first, remove_of_first};
pub use places::{bounds, count_below};
pub use promises::{pair_promises_stand, promises_stand};
pub use table_ranges::{between, remove_between};
