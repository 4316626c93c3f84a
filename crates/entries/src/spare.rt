// Blob rows as they would be after a replacement.
ghost use Rattle.std.specs.Prelude.{◌≡◌, ◌+◌, ◌<◌, ◌≤◌, true, [], ◌∷◌, length, IfOk, nat_lt};
ghost use Rattle.table.specs.Held.{held};
ghost use Rattle.std.specs.Ordering.{int_cmp};
ghost use Rattle.table.specs.Ranges.{floored, least_signed};
ghost use Rattle.table.specs.Rows.{insert_row};
ghost use Rattle.segment.specs.Pointers.{blob_of};
ghost use Rattle.segment.specs.Rows.{blob_key, by_signed};
ghost use Rattle.rules.specs.Links.{first_refusal};
ghost use Rattle.rules.specs.Replacing.{given_up, with_blob};
ghost use Rattle.rules.specs.declared.refusal.Refusal.TheVariants as no;
ghost use Rattle.ledger.specs.Verdicts.{verdict};

use ledger::{MAX_BLOB_ROWS, are_floored, put};
use rules::Refusal;
use segment::{BlobPointer, BlobRow, CacheInfo, SegmentId};
use std::alloc::{AllocError, Global};
use table::Table;

#[derive(Drop)]
pub struct SpareBlobs {
    pub rows: Table<BlobRow, MAX_BLOB_ROWS>,
    // Blob pointers are signed numbers of 64 bits.
    ghost floor: { floored blob_key int_cmp (held rows) least_signed ≡ true },
}

impl SpareBlobs {
    pub fn new(heap: Global) -> Result<SpareBlobs, AllocError>
        ensures { IfOk result (λ s. held s.rows ≡ []) }
    {
        let rows = Table::new(heap)?;
        Ok(SpareBlobs { rows })
    }

    fn put(&mut self, row: BlobRow)
        requires { length (held self.old.rows) < 512 }
        ensures { held self.new.rows ≡ insert_row blob_key by_signed (held self.old.rows) row }
    {
        put(&mut self.rows, row);
    }

    // The blob of an old entry is given up, unless it is the one kept.
    fn give(&mut self, n: SegmentId, keep: Option<BlobPointer>, old: &CacheInfo)
        requires { length (held self.old.rows) < 512 }
        ensures { held self.new.rows ≡ with_blob n keep (blob_of old.now.pointer) (held self.old.rows) }
    {
        if let Some(blob) = old.pointer.blob()
            && keep != Some(blob)
        {
            self.put(BlobRow { segment: n, blob });
        }
    }

    // The blobs of the old entries but the one kept are to be removed once segment n is deactivated.
    fn give_up(&mut self, n: SegmentId, keep: Option<BlobPointer>, olds: &[CacheInfo])
        requires { length (held self.old.rows) + length olds.now ≤ 512 }
        ensures { held self.new.rows ≡ given_up n keep olds.now (held self.old.rows) }
    {
        for old in olds {
            self.give(n, keep, old);
        }
    }

    // The blob rows as they would be after the replacement of the old entries.
    pub fn fill<const LIMIT: usize>(
        &mut self,
        blobs: &Table<BlobRow, LIMIT>,
        n: SegmentId,
        keep: Option<BlobPointer>,
        olds: &[CacheInfo],
    )
        requires room { length (held blobs.now) ≤ 256 }
        requires few { length olds.now ≤ 256 }
        ensures { held self.new.rows ≡ given_up n keep olds.now (held blobs.now) }
    {
        are_floored(blobs.rows());
        self.rows.copy_rows(blobs.rows());
        self.give_up(n, keep, olds);
    }

    // There may not be more than 256 blob rows.
    pub fn check(&self) -> Result<(), Refusal>
        ensures { result ≡ verdict (first_refusal ((nat_lt 256 (length (held self.now.rows)), no.BlobRowsFull) ∷ [])) }
    {
        if self.rows.len() > 256 {
            return Err(Refusal::BlobRowsFull);
        }
        Ok(())
    }
}
