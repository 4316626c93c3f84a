// Piles of hosts, run on examples.
#![tactic(auto)]

#[cfg(test)]
mod tests;
