// The segment accountant: its six calls over any host, and what they keep.
#![tactic(auto)]

mod accountant;
mod bodies;

pub use accountant::SegmentAccountant;
