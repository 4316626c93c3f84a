// What holds the log file and the blobs, by what it answers.
#![tactic(auto)]

mod fail;
mod host;
mod request;
mod take;

pub use fail::FailLayer;
pub use host::Host;
pub use request::{BlobPointer, HostFault, LogOffset, Request};
pub use take::TakeRequest;
