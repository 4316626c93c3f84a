// The states of a segment. Each is a type of its own, and none can be copied: a change of state takes one and gives the next.
use crate::types::Lsn;

// Not in use; it may have had an LSN before.
#[derive(Drop)]
pub struct Free {
    pub previous_lsn: Option<Lsn>,
}

// Being written. `rss` are the bytes linked, of which `deferred_replaced_rss` are replaced already.
#[derive(Drop)]
pub struct Active {
    pub lsn: Lsn,
    pub rss: u64,
    pub deferred_replaced_rss: u64,
    pub latest_replacement_lsn: Lsn,
}

// No longer written. `rss` are its live bytes, `max_pids` its pages and `replaced_pids` those that have left.
#[derive(Drop)]
pub struct Inactive {
    pub lsn: Lsn,
    pub rss: u64,
    pub max_pids: u64,
    pub replaced_pids: u64,
    pub latest_replacement_lsn: Lsn,
}

// Being emptied: its pages are rewritten elsewhere.
#[derive(Drop)]
pub struct Draining {
    pub lsn: Lsn,
    pub max_pids: u64,
    pub replaced_pids: u64,
    pub latest_replacement_lsn: Lsn,
}

#[derive(Drop)]
pub enum State {
    Free(Free),
    Active(Active),
    Inactive(Inactive),
    Draining(Draining),
}
