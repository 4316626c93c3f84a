// A blob that a host holds, as a row of a table.
ghost use Rattle.memory_host.specs.Blobs.{pointer};

use host::BlobPointer;
use table::{Key, Row};

/// A blob that is held, by its pointer.
#[derive(Clone, Copy, PartialEq, Eq, Debug)]
pub struct Blob(pub BlobPointer);

impl Row for Blob {
    type Key = BlobPointer;

    ghost keyed = { pointer };

    fn key(&self) -> BlobPointer {
        self.0
    }
}
