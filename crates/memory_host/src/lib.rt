// Hosts that live in memory: one that grants all, and one that writes its requests down.
#![tactic(auto)]

mod blob;
mod blob_set;
mod held_blobs;
mod memory;
mod queue;

pub use blob::Blob;
pub use held_blobs::HeldBlobs;
pub use memory::MemoryHost;
pub use queue::QueueHost;
