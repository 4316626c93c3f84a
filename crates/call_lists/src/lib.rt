// Call lists: the statements that runs are written down with, and how a line of text is read as one.
#![tactic(auto)]

mod call_list;
mod fields;
mod parts;
mod reason;
mod statement;
mod stop;
mod word;

pub use call_list::CallList;
pub use reason::Reason;
pub use statement::{CallLine, Part, Setup, Statement, read_statement};
pub use stop::Stop;
