// The blobs that a host holds, as a list to read.
ghost use Rattle.std.specs.Prelude.{◌≡◌, ℤ};
ghost use Rattle.memory_host.specs.Blobs.{Ascending, in_rows};

use crate::blob::Blob;
use host::{FailLayer, Host};

/// A host that can list the blobs it holds.
pub trait HeldBlobs: Host {
    /// The blobs held, ascending.
    fn held_blobs(&self) -> &[Blob]
        ensures order { Ascending result.now }
        ensures held { (b : ℤ) → in_rows result.now b ≡ Self.Host.holds (Self.Host.model self.now) b };
}

impl<H: HeldBlobs> HeldBlobs for FailLayer<H> {
    fn held_blobs(&self) -> &[Blob] {
        self.below().held_blobs()
    }
}
