// The blobs that a host in memory holds.
ghost use Rattle.std.specs.Prelude.{◌≡◌, ◌+◌, ◌≤◌, length, take, ℤ, IfOk};
ghost use Rattle.table.specs.Held.{held};
ghost use Rattle.memory_host.specs.Blobs.{among, first_blobs, is_held, with_all, without};
ghost use Rattle.memory_host.specs.Held.{blobs_of};

use crate::blob::Blob;
use host::BlobPointer;
use std::alloc::{AllocError, Global};
use table::{Key, Row, Table};

const LIMIT: usize = 1024;

// At most 1,024 blobs, ascending.
#[derive(Drop)]
pub(crate) struct BlobSet {
    table: Table<Blob, LIMIT>,
}

impl BlobSet {
    // The first 1,024 of the list; one that stands there twice counts twice and is held once.
    pub(crate) fn first_of(heap: Global, list: &[BlobPointer]) -> Result<BlobSet, AllocError>
        ensures rows { IfOk result (λ s. blobs_of s ≡ first_blobs list.now) }
        ensures members { IfOk result (λ s. (b : ℤ) → is_held (blobs_of s) b ≡ among (take 1024 list.now) b) }
    {
        let table = Table::new(heap)?;
        let mut set = BlobSet { table };
        set.enter(&list[..list.len().min(LIMIT)]);
        Ok(set)
    }

    // Enters each of the list in turn.
    fn enter(&mut self, list: &[BlobPointer])
        requires { length (held self.old.table) + length list.now ≤ 1024 }
        ensures { blobs_of self.new ≡ with_all (blobs_of self.old) list.now }
    {
        for blob in list {
            let _ = self.table.insert(Blob(*blob));
        }
    }

    pub(crate) fn remove(&mut self, blob: BlobPointer)
        ensures { blobs_of self.new ≡ without (blobs_of self.old) blob }
    {
        self.table.remove(blob);
    }

    pub(crate) fn rows(&self) -> &[Blob]
        ensures { result.now ≡ (blobs_of self.now).rows }
    {
        self.table.rows()
    }
}
