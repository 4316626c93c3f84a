// The level that a stabilize brings the books to.
ghost use Rattle.std.specs.Prelude.{◌≡◌, ◌^◌, ◌<◌, ◌≤◌, pos, ◌≤ℤ◌};
ghost use Rattle.rules.specs.Stabilizing.{is_settled, level};
ghost use Rattle.ledger.specs.Ledgers.{books_of};

use ledger::Ledger;
use segment::{Lsn, base};

// One segment less than the base of the LSN.
pub fn level(lsn: Lsn, segment_size: u64) -> Lsn
    requires lsn { pos 0 ≤ℤ lsn }
    requires size { (0 < segment_size) × (segment_size ≤ 2 ^ 24) }
    ensures { result ≡ level segment_size lsn }
{
    base(lsn, segment_size) - segment_size as Lsn
}

// Whether nothing is to be done.
pub fn is_settled(ledger: &Ledger, lsn: Lsn) -> bool
    requires { (0 < ledger.now.segment_size) × (ledger.now.segment_size ≤ 2 ^ 24) }
    ensures { result ≡ is_settled (books_of ledger.now) lsn }
{
    lsn < 0 || level(lsn, ledger.segment_size) <= ledger.max_stabilized_lsn
}
