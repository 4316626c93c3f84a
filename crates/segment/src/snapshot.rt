// The snapshot that the segments are recovered from: what was stable, and where each page lies.
use crate::disk_pointer::DiskPtr;
use crate::types::Lsn;
use host::LogOffset;

// An entry of a page in the log, as it stands in a snapshot. The kind is a number, since a damaged snapshot may hold any.
#[derive(Clone, Copy)]
pub struct SnapshotRow {
    pub kind: u8,
    pub lsn: Lsn,
    pub pointer: DiskPtr,
    pub size: u64,
}

// What a row is to its page.
#[derive(Clone, Copy, PartialEq, Eq, Debug)]
pub enum RowKind {
    Base,
    Fragment,
    Free,
    Uninitialized,
}

// A number that stands for no kind of row.
#[derive(Clone, Copy, PartialEq, Eq, Debug)]
pub struct UnknownKind(pub u8);

// The rows of one page: the place of the first, and how many there are.
#[derive(Clone, Copy)]
pub struct PageEntry {
    pub first: u64,
    pub count: u64,
}

// The directory has an entry for each page, by its number from 0.
#[derive(Clone, Copy)]
pub struct Snapshot<'a> {
    pub stable_lsn: Option<Lsn>,
    pub active_segment: Option<LogOffset>,
    pub directory: &'a [PageEntry],
    pub rows: &'a [SnapshotRow],
}

// A page: its base with the fragments that follow it, which are a part of the snapshot's rows, or a page that is free.
#[derive(Clone, Copy)]
pub enum PageState<'a> {
    Present {
        base: SnapshotRow,
        frags: &'a [SnapshotRow],
    },
    Free(SnapshotRow),
}
