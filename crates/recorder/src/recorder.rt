// A host that writes down what it is asked. The log is a parameter, so that this block names no cell: an impl of a trait with laws may not.
ghost use Rattle.std.specs.Prelude.{◌≡◌};
ghost use Rattle.recorder.specs.Recorders.{below_of};
ghost use Rattle.std.proofs.Common.{rules};

use crate::log::{Asked, Notes};
use host::{Host, HostFault, Request, TakeRequest};
use memory_host::{Blob, HeldBlobs};

/// Hands each request on to the host below, and writes it down with its answer. To those above it is what the host below is.
#[derive(Drop)]
pub struct Recorder<L, H> {
    log: L,
    below: H,
}

impl<L, H> Recorder<L, H> {
    pub fn new(log: L, below: H) -> Recorder<L, H>
        ensures { below_of result ≡ below }
    {
        Recorder { log, below }
    }

    pub fn log(&self) -> &L {
        &self.log
    }

    /// The host below.
    pub fn below(&self) -> &H
        ensures { result.now ≡ below_of self.now }
    {
        &self.below
    }
}

impl<L: Notes, H: Host> Host for Recorder<L, H> {
    ghost Model = { H.Host.Model };

    ghost model = { λ r. H.Host.model (below_of r) };

    ghost respond = { H.Host.respond };

    ghost extent = { H.Host.extent };

    ghost holds = { H.Host.holds };

    ghost slot = { H.Host.slot };

    ghost taken = { H.Host.taken };

    ghost obeys = { Prim.search rules };

    ghost taking = { Prim.search rules };

    fn ask(&mut self, request: Request) -> Result<(), HostFault> {
        let answer = self.below.ask(request);
        self.log.note(Asked { request, answer });
        answer
    }

    fn length(&self) -> u64 {
        self.below.length()
    }

    fn segment_size(&self) -> u64 {
        self.below.segment_size()
    }
}

impl<L: Notes, H: TakeRequest> TakeRequest for Recorder<L, H> {
    fn take_request(&mut self) -> Option<Request> {
        self.below.take_request()
    }
}

impl<L: Notes, H: HeldBlobs> HeldBlobs for Recorder<L, H> {
    fn held_blobs(&self) -> &[Blob] {
        self.below.held_blobs()
    }
}
