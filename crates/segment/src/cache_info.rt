// What the page cache knows of one entry of a page.
use crate::disk_pointer::DiskPtr;
use crate::types::Lsn;

#[derive(Clone, Copy)]
pub struct CacheInfo {
    pub ts: u64,
    pub lsn: Lsn,
    pub pointer: DiskPtr,
    pub log_size: u64,
}
