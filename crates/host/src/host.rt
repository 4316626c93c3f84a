// A host, by what it answers.
ghost use Rattle.std.specs.Prelude.{◌≡◌, ℕ, Bool, ℤ, Option, Result};
ghost use Rattle.host.specs.declared.request.Request.{Request};
ghost use Rattle.host.specs.declared.request.HostFault.{HostFault};
ghost use Rattle.host.specs.Meaning.{asked_cut, asked_fill, asked_remove, sight, Obeys, Taken};

use crate::request::{BlobPointer, HostFault, LogOffset, Request};

/// What holds the log file and the blobs.
pub trait Host {
    // What a state of the host is to those above it.
    ghost Model: { Type 0 };

    ghost model: { Self → Model };

    // One answer and one state after, for every state and request.
    ghost respond: { Model → Request → Result (Unit {0}) HostFault × Model };

    // The length of the file, whether a blob is held, and the segment size that the host was made for.
    ghost extent: { Model → ℕ };

    ghost holds: { Model → ℤ → Bool };

    ghost slot: { Model → ℕ };

    // The oldest request that was written down and not yet taken, if any, and the state once it is taken.
    ghost taken: { Model → Option Request × Model };

    /// Asks for the request.
    fn ask(&mut self, request: Request) -> Result<(), HostFault>
        ensures { (result, model self.new) ≡ respond (model self.old) request };

    /// Asks to cut the file off at the offset.
    fn cut(&mut self, offset: LogOffset) -> Result<(), HostFault>
        ensures { (result, model self.new) ≡ respond (model self.old) (asked_cut offset) }
    {
        self.ask(Request::Cut(offset))
    }

    /// Asks to zero one segment at the offset.
    fn fill(&mut self, offset: LogOffset) -> Result<(), HostFault>
        ensures { (result, model self.new) ≡ respond (model self.old) (asked_fill offset) }
    {
        self.ask(Request::Fill(offset))
    }

    /// Asks to take the blob out.
    fn remove(&mut self, blob: BlobPointer) -> Result<(), HostFault>
        ensures { (result, model self.new) ≡ respond (model self.old) (asked_remove blob) }
    {
        self.ask(Request::Remove(blob))
    }

    /// The length of the file.
    fn length(&self) -> u64
        ensures { result ≡ extent (model self.now) };

    /// The segment size that the host was made for.
    fn segment_size(&self) -> u64
        ensures { result ≡ slot (model self.now) };

    ghost obeys: { (m : Model) (q : Request) → Obeys (sight extent holds slot) m q (respond m q) };

    ghost taking: { (m : Model) → Taken (sight extent holds slot) m (taken m) };
}
