// Lines of call lists, read on examples.
#![tactic(auto)]

#[cfg(test)]
mod tests;
