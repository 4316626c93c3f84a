// A host in memory.
ghost use Rattle.std.specs.Prelude.{◌≡◌, take, ℤ, IfOk};
ghost use Rattle.memory_host.specs.Blobs.{among};
ghost use Rattle.memory_host.specs.Memory.{MemoryModel, memory_holds, memory_made, memory_model, memory_respond, memory_taken};
ghost use Rattle.memory_host.specs.Grants.{memory_obeys};
ghost use Rattle.std.proofs.Common.{rules};

use crate::blob::Blob;
use crate::blob_set::BlobSet;
use crate::held_blobs::HeldBlobs;
use host::{BlobPointer, Host, HostFault, Request, TakeRequest};
use std::alloc::{AllocError, Global};

/// A file length and the blobs held, in memory. It grants all.
#[derive(Drop)]
pub struct MemoryHost {
    segment_size: u64,
    length: u64,
    blobs: BlobSet,
}

impl MemoryHost {
    /// A host that holds the first 1,024 blobs of the list; one that stands there twice counts twice and is held once.
    pub fn new(
        heap: Global,
        segment_size: u64,
        length: u64,
        blobs: &[BlobPointer],
    ) -> Result<MemoryHost, AllocError>
        ensures model { IfOk result (λ h. memory_model h ≡ memory_made segment_size length blobs.now) }
        ensures held { IfOk result (λ h. (b : ℤ) → memory_holds (memory_model h) b ≡ among (take 1024 blobs.now) b) }
    {
        let blobs = BlobSet::first_of(heap, blobs)?;
        Ok(MemoryHost {
            segment_size,
            length,
            blobs,
        })
    }
}

impl Host for MemoryHost {
    ghost Model = { MemoryModel };

    ghost model = { memory_model };

    ghost respond = { memory_respond };

    ghost extent = { λ m. m.extent };

    ghost holds = { memory_holds };

    ghost slot = { λ m. m.slot };

    ghost taken = { memory_taken };

    ghost obeys = { memory_obeys };

    ghost taking = { Prim.search rules };

    fn ask(&mut self, request: Request) -> Result<(), HostFault> {
        match request {
            Request::Cut(offset) => self.length = self.length.min(offset),
            Request::Fill(offset) => {
                self.length = self.length.max(offset.saturating_add(self.segment_size));
            }
            Request::Remove(blob) => self.blobs.remove(blob),
        }
        Ok(())
    }

    fn length(&self) -> u64 {
        self.length
    }

    fn segment_size(&self) -> u64 {
        self.segment_size
    }
}

impl TakeRequest for MemoryHost {
    fn take_request(&mut self) -> Option<Request> {
        None
    }
}

impl HeldBlobs for MemoryHost {
    fn held_blobs(&self) -> &[Blob] {
        self.blobs.rows()
    }
}
