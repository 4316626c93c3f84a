// The segment of an LSN.
ghost use Rattle.std.specs.Prelude.{◌≡◌, ◌<◌};
ghost use Rattle.rules.specs.Stabilizing.{number_of_lsn};
ghost use Rattle.ledger.specs.Ledgers.{books_of};

use ledger::Ledger;
use segment::{Lsn, SegmentId};

// The segment that the ordering has under this LSN, or 0, as the rules have it.
pub fn number_of_lsn(ledger: &Ledger, lsn: Lsn) -> SegmentId
    requires { 0 < ledger.now.segment_size }
    ensures { result ≡ number_of_lsn (books_of ledger.now) lsn }
{
    ledger
        .ordering
        .get(lsn)
        .map_or(0, |row| ledger.segment_id(row.offset))
}
