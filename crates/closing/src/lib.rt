// What a stabilize does to the ledger without asking the host.
#![tactic(auto)]

mod closes;
mod counts;
mod levels;
mod numbers;
mod queueing;
mod releases;
mod ripening;
mod shares;

pub use closes::{blobs_of, close_at, drop_blobs};
pub use counts::{left_count, page_count};
pub use levels::{is_settled, level};
pub use numbers::number_of_lsn;
pub use queueing::queue_all;
pub use releases::{drop_freeable, first_held_back};
pub use ripening::{Ripe, gather_ripe};
pub use shares::{inactive_count, last_inactive, much_is_free, share_drains};
