// Pointers, infos and rows, read from their fields.
ghost use Rattle.std.specs.Prelude.{IfOk};
ghost use Rattle.call_lists.specs.Parts.{Info, Pointer, Row};

use crate::fields::{read_number, read_number_or_none};
use crate::reason::Reason;
use segment::{CacheInfo, DiskPtr, SnapshotRow};

// A place in the log, with a blob or without.
fn read_pointer(offset: &str, blob: &str) -> Result<DiskPtr, Reason>
    ensures { IfOk result (Pointer offset.now blob.now) }
{
    let offset = read_number(offset)?;
    match read_number_or_none(blob)? {
        None => Ok(DiskPtr::Inline(offset)),
        Some(blob) => Ok(DiskPtr::Blob(offset, blob)),
    }
}

// A text for each field, here and below: the contract names each of them, which a slice or an array of them would not do.
pub(crate) fn read_info(
    ts: &str,
    lsn: &str,
    offset: &str,
    blob: &str,
    size: &str,
) -> Result<CacheInfo, Reason>
    ensures { IfOk result (Info ts.now lsn.now offset.now blob.now size.now) }
{
    let ts = read_number(ts)?;
    let lsn = read_number(lsn)?;
    let pointer = read_pointer(offset, blob)?;
    let log_size = read_number(size)?;
    Ok(CacheInfo {
        ts,
        lsn,
        pointer,
        log_size,
    })
}

pub(crate) fn read_row(
    kind: &str,
    lsn: &str,
    offset: &str,
    blob: &str,
    size: &str,
) -> Result<SnapshotRow, Reason>
    ensures { IfOk result (Row kind.now lsn.now offset.now blob.now size.now) }
{
    let kind = read_number(kind)?;
    let lsn = read_number(lsn)?;
    let pointer = read_pointer(offset, blob)?;
    let size = read_number(size)?;
    Ok(SnapshotRow {
        kind,
        lsn,
        pointer,
        size,
    })
}
