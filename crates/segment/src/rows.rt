// The rows that the books keep, each with its key.
ghost use Rattle.std.specs.Prelude.{◌≡◌};
ghost use Rattle.host.specs.declared.request.HostFault.TheVariants as fault;
ghost use Rattle.segment.specs.Rows.{ordering_key, page_key, blob_key, freeable_key, fault_key};

use crate::types::{Lsn, PageId, SegmentId};
use host::{BlobPointer, HostFault, LogOffset};
use table::{Key, Row};

// Where the log goes on from an LSN.
#[derive(Clone, Copy)]
pub struct OrderingRow {
    pub lsn: Lsn,
    pub offset: LogOffset,
}

// A page that was written into a segment. It may have left it, and it may be queued to be rewritten: a flag for each, since a queued
// page may leave.
#[derive(Clone, Copy)]
pub struct PageRow {
    pub segment: SegmentId,
    pub page: PageId,
    pub left: bool,
    pub queued: bool,
}

// A blob to remove when the segment is deactivated.
#[derive(Clone, Copy)]
pub struct BlobRow {
    pub segment: SegmentId,
    pub blob: BlobPointer,
}

// A Free segment, by the LSN it had, that waits until this segment is deactivated.
#[derive(Clone, Copy)]
pub struct FreeableRow {
    pub segment: SegmentId,
    pub lsn: Lsn,
}

// A cut that the host refused. The code is a number of the host's own.
#[derive(Clone, Copy)]
pub struct FaultRow {
    pub offset: LogOffset,
    pub code: u16,
    pub layer: u8,
}

impl Row for OrderingRow {
    type Key = i64;

    ghost keyed = { ordering_key };

    fn key(&self) -> i64 {
        self.lsn
    }
}

impl Row for PageRow {
    type Key = (u64, u64);

    ghost keyed = { page_key };

    fn key(&self) -> (u64, u64) {
        (self.segment, self.page)
    }
}

impl Row for BlobRow {
    type Key = (u64, i64);

    ghost keyed = { blob_key };

    fn key(&self) -> (u64, i64) {
        (self.segment, self.blob)
    }
}

impl Row for FreeableRow {
    type Key = (u64, i64);

    ghost keyed = { freeable_key };

    fn key(&self) -> (u64, i64) {
        (self.segment, self.lsn)
    }
}

impl Row for FaultRow {
    type Key = u64;

    ghost keyed = { fault_key };

    fn key(&self) -> u64 {
        self.offset
    }
}

// The fault that the host told of the cut.
impl From<FaultRow> for HostFault {
    ghost from_gives = { λ row f. f ≡ fault.Cut row.offset row.code row.layer };

    fn from(row: FaultRow) -> HostFault {
        HostFault::Cut {
            offset: row.offset,
            code: row.code,
            layer: row.layer,
        }
    }
}
