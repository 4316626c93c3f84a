// The numbers of the log, under the names that the crate sled gives them.

// A position in the endless log.
pub type Lsn = i64;

// The number of a page.
pub type PageId = u64;

// The number of a segment in the file.
pub type SegmentId = u64;
