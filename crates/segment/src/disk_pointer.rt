// Where an entry of the log lies.
ghost use Rattle.std.specs.Prelude.{◌≡◌};
ghost use Rattle.segment.specs.Pointers.{lid_of, blob_of, inline, blob};

use host::{BlobPointer, LogOffset};

// A pointer to a location in the log, or to a blob off the log.
#[derive(Clone, Copy)]
pub enum DiskPtr {
    // The value stands in the log file.
    Inline(LogOffset),
    // The value stands in a blob file; the log file names it at the offset.
    Blob(LogOffset, BlobPointer),
}

impl DiskPtr {
    pub fn new_inline(l: LogOffset) -> DiskPtr
        ensures { result ≡ inline l }
    {
        DiskPtr::Inline(l)
    }

    pub fn new_blob(lid: LogOffset, ptr: BlobPointer) -> DiskPtr
        ensures { result ≡ blob lid ptr }
    {
        DiskPtr::Blob(lid, ptr)
    }

    // The offset in the log file.
    pub fn lid(&self) -> LogOffset
        ensures { result ≡ lid_of self.now }
    {
        match self {
            DiskPtr::Inline(lid) | DiskPtr::Blob(lid, _) => *lid,
        }
    }

    // The blob that it points to, if it points to one.
    pub fn blob(&self) -> Option<BlobPointer>
        ensures { result ≡ blob_of self.now }
    {
        match self {
            DiskPtr::Inline(_) => None,
            DiskPtr::Blob(_, ptr) => Some(*ptr),
        }
    }
}
