// The segments of the log file: their states, the rows kept of them, and the snapshot that they are recovered from.
#![tactic(auto)]

mod cache_info;
mod changes;
mod disk_pointer;
mod lsn;
mod pages;
mod rows;
mod segment;
mod snapshot;
mod state;
mod types;
mod updates;

pub use cache_info::CacheInfo;
pub use disk_pointer::DiskPtr;
pub use host::{BlobPointer, LogOffset};
pub use lsn::base;
pub use pages::{page_rows, page_state};
pub use rows::{BlobRow, FaultRow, FreeableRow, OrderingRow, PageRow};
pub use segment::Segment;
pub use snapshot::{PageEntry, PageState, RowKind, Snapshot, SnapshotRow, UnknownKind};
pub use state::{Active, Draining, Free, Inactive, State};
pub use types::{Lsn, PageId, SegmentId};
