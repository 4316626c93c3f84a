// An ordered table for every kind of row: search by halves, and edits that keep the order.
#![tactic(auto)]

mod key;
mod limited;
mod owner;
mod row;
mod slices;

pub use key::Key;
pub use limited::LimitedTable;
pub use owner::{Full, Table};
pub use row::Row;
pub use slices::{insert_in, remove_in, search};
