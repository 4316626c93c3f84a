// What the accountant does to its books over a host: segments are freed and the file is cut, segments are cleaned, old places are visited,
// and what is stable is deactivated.
#![tactic(auto)]

mod cleaning;
mod cutting;
mod draining;
mod releasing;
mod stabilizing;
mod world;

pub use world::World;
