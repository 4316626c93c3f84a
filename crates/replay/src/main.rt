// Plays a call list from standard input and writes its transcript to standard output.
#![tactic(auto)]

mod call_list;
mod run;
mod statement;
mod transcript;

use crate::call_list::CallList;
use crate::run::play;
use call_lists::Stop;

// A line that cannot be read is told, and ends the work.
fn main(rt: HostRuntime) -> Result<(), Stop> {
    let mut list = CallList::new(&rt)?;
    let ended = play(&rt, &mut list);
    if let Err(Stop::Unread(reason)) = &ended {
        let line = list.line();
        println!(rt; "line {line}: {reason}")?;
    }
    ended
}
