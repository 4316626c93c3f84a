// The books: the state of each segment reached, and the tables.
ghost use Rattle.std.specs.Prelude.{◌≡◌, true};
ghost use Rattle.std.specs.Ordering.{int_cmp};
ghost use Rattle.table.specs.Held.{held};
ghost use Rattle.table.specs.Ranges.{floored, least_signed};
ghost use Rattle.segment.specs.Rows.{blob_key};

use crate::segments::Segments;
use segment::{BlobRow, FaultRow, FreeableRow, LogOffset, Lsn, OrderingRow, PageRow};
use table::Table;

pub const MAX_SEGMENTS: usize = 256;

pub const MAX_PAGE_ROWS: usize = 2048;

// As many as there may be, and as many as one replacement may give up.
pub const MAX_BLOB_ROWS: usize = 512;

// The bytes of an entry, and those linked into a segment.
pub const MAX_SIZE: u64 = 4_294_967_295;

pub const MAX_LINKED: u64 = 1_099_511_627_776;

#[derive(Drop)]
pub struct Ledger {
    // 0 before a start: what divides by it asks that it is not.
    pub segment_size: u64,
    pub segments: Segments,
    // Where the file is extended next.
    pub tip: LogOffset,
    pub max_stabilized_lsn: Lsn,
    // Offsets that may be handed out.
    pub free: Table<LogOffset, MAX_SEGMENTS>,
    pub ordering: Table<OrderingRow, MAX_SEGMENTS>,
    pub pages: Table<PageRow, MAX_PAGE_ROWS>,
    pub blobs: Table<BlobRow, MAX_BLOB_ROWS>,
    pub freeable: Table<FreeableRow, MAX_SEGMENTS>,
    // Offsets of the segments being emptied.
    pub listed: Table<LogOffset, MAX_SEGMENTS>,
    // Cuts that the host refused.
    pub faults: Table<FaultRow, MAX_SEGMENTS>,
    // Blob pointers are signed numbers of 64 bits.
    ghost blobs_floor: { floored blob_key int_cmp (held blobs) least_signed ≡ true },
}
