// What a queue host does.
ghost use Rattle.std.specs.Prelude.{◌≡◌, ◌≤◌, take, ℤ, IfOk, if◌then◌else◌, Ok, Err, vec_len, vec_capacity};
ghost use Rattle.memory_host.specs.Blobs.{among};
ghost use Rattle.host.specs.Meaning.{refusal};
ghost use Rattle.memory_host.specs.Memory.{memory_holds};
ghost use Rattle.memory_host.specs.Queue.{QueueModel, has_place, later, noted, oldest, queue_made, queue_model, queue_respond, queue_taken};
ghost use Rattle.memory_host.specs.Grants.{queue_obeys};
ghost use Rattle.std.proofs.Common.{rules, arith};

use super::QueueHost;
use crate::blob::Blob;
use crate::held_blobs::HeldBlobs;
use crate::memory::MemoryHost;
use host::{BlobPointer, Host, HostFault, Request, TakeRequest};
use std::alloc::{AllocError, Global};

const PLACES: usize = 64;

// The host's own code, which its callers are told.
const FULL: u16 = 2;

// Writes the request at the end, or refuses it if there is no place.
fn note(requests: &mut Vec<Request>, request: Request) -> Result<(), HostFault>
    requires { (vec_len requests.old ≤ 64) × (64 ≤ vec_capacity requests.old) }
    ensures answer { result ≡ (if has_place requests.old.items then Ok tt else Err (refusal request 2 0)) }
    ensures items { requests.new.items ≡ noted requests.old.items request }
    ensures room { (vec_len requests.new ≤ 64) × (64 ≤ vec_capacity requests.new) }
{
    if requests.len() >= PLACES {
        return Err(request.refused(FULL));
    }
    requests.push_reserved(request);
    Ok(())
}

// Takes the oldest request out. The list is no VecDeque: that has no one slice of its items, which `queued` answers.
fn next(requests: &mut Vec<Request>) -> Option<Request>
    ensures value { result ≡ oldest requests.old.items }
    ensures items { requests.new.items ≡ later requests.old.items }
    ensures room { (vec_len requests.new ≤ vec_len requests.old) × (vec_capacity requests.new ≡ vec_capacity requests.old) }
{
    if requests.is_empty() {
        None
    } else {
        Some(requests.remove(0))
    }
}

impl QueueHost {
    /// A host that holds the first 1,024 blobs of the list, as a memory host does, and has nothing written down.
    pub fn new(
        heap: Global,
        segment_size: u64,
        length: u64,
        blobs: &[BlobPointer],
    ) -> Result<QueueHost, AllocError>
        ensures model { IfOk result (λ h. queue_model h ≡ queue_made segment_size length blobs.now) }
        ensures held { IfOk result (λ h. (b : ℤ) → memory_holds (queue_model h).memory b ≡ among (take 1024 blobs.now) b) }
    {
        let memory = MemoryHost::new(heap, segment_size, length, blobs)?;
        let requests = Vec::with_capacity(heap, PLACES)?;
        Ok(QueueHost { memory, requests })
    }

    /// The requests written down and not yet taken, oldest first.
    pub fn queued(&self) -> &[Request]
        ensures { result.now ≡ (queue_model self.now).queued }
    {
        self.requests.as_slice()
    }
}

impl Host for QueueHost {
    ghost Model = { QueueModel };

    ghost model = { queue_model };

    ghost respond = { queue_respond };

    ghost extent = { λ m. m.memory.extent };

    ghost holds = { λ m. memory_holds m.memory };

    ghost slot = { λ m. m.memory.slot };

    ghost taken = { queue_taken };

    ghost obeys = { queue_obeys };

    ghost taking = { first_of (Prim.search rules, Prim.grind (arith, Self.row.coded.inj)) };

    fn ask(&mut self, request: Request) -> Result<(), HostFault> {
        note(&mut self.requests, request)?;
        self.memory.ask(request)
    }

    fn length(&self) -> u64 {
        self.memory.length()
    }

    fn segment_size(&self) -> u64 {
        self.memory.segment_size()
    }
}

impl TakeRequest for QueueHost {
    fn take_request(&mut self) -> Option<Request> {
        next(&mut self.requests)
    }
}

impl HeldBlobs for QueueHost {
    fn held_blobs(&self) -> &[Blob] {
        self.memory.held_blobs()
    }
}
