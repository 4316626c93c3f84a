// Where the segment of an LSN begins in the log.
ghost use Rattle.std.specs.Prelude.{◌≡◌, ◌<◌, pos, ◌≤ℤ◌};
ghost use Rattle.segment.specs.Bases.{base_of};

use crate::types::Lsn;

pub fn base(lsn: Lsn, segment_size: u64) -> Lsn
    requires lsn { pos 0 ≤ℤ lsn }
    requires size { 0 < segment_size }
    ensures { result ≡ base_of segment_size lsn }
{
    let at = lsn as u64;
    (at - at % segment_size) as Lsn
}
