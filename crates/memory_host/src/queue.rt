// A host in memory that writes its requests down.
ghost use Rattle.std.specs.Prelude.{◌≤◌, vec_len, vec_capacity};

use crate::memory::MemoryHost;
use host::Request;

pub(crate) mod methods;

/// A memory host that writes each request into a list of at most 64, oldest first, for another program to take, and counts it as done.
#[derive(Drop)]
pub struct QueueHost {
    memory: MemoryHost,
    requests: Vec<Request>,
    ghost few: { vec_len requests ≤ 64 },
    ghost room: { 64 ≤ vec_capacity requests },
}
