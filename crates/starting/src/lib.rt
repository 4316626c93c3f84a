// A start over any host: the books are recovered from a snapshot, then the Free segments are freed and filled.
#![tactic(auto)]

mod freeing;
mod whole;

pub use freeing::free_all;
pub use whole::start;
