// The ledger: the books of the accountant, and the steps that change them without asking the host.
#![tactic(auto)]

mod floors;
mod freeing;
mod handing_out;
mod ledger;
mod linking;
mod lookup;
mod lsns;
mod making;
mod room;
mod segments;

pub use floors::are_floored;
pub use ledger::{Ledger, MAX_BLOB_ROWS, MAX_LINKED, MAX_PAGE_ROWS, MAX_SEGMENTS, MAX_SIZE};
pub use lsns::out_of_range;
pub use room::put;
pub use segments::Segments;
