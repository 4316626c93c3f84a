// The calls that link and replace, whole: their checks, what they do to the books, and the segments that a replacement cleans over a host.
#![tactic(auto)]

mod linking;
mod replaces;
mod visiting;

pub use linking::link;
pub use replaces::replace;
