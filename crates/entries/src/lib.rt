// Entries of pages: linking one, and replacing a page's old ones by a new one, on the ledger.
#![tactic(auto)]

mod links;
mod olds;
mod recording;
mod replacement;
mod replaces;
mod scratch;
mod spare;
mod sums;
mod taking;

pub use ledger::out_of_range;
pub use links::check_link;
pub use recording::{link, record_replacement};
pub use replacement::Replacement;
pub use replaces::check_replace;
pub use scratch::Scratch;
pub use spare::SpareBlobs;
pub use sums::{SumRow, Sums};
pub use taking::take_at;
