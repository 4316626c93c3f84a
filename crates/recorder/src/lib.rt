// A layer over any host that writes down each request with its answer.
#![tactic(auto)]

mod log;
mod recorder;

pub use log::{Asked, Log, Notes};
pub use recorder::Recorder;
