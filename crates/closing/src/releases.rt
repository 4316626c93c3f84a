// The segments that a segment holds back.
ghost use Rattle.std.specs.Prelude.{◌≡◌, ◌<◌};
ghost use Rattle.table.specs.Held.{held};
ghost use Rattle.table.specs.Rows.{first_of, remove_row};
ghost use Rattle.segment.specs.Rows.{freeable_key, by_signed};
ghost use Rattle.rules.specs.Books.{with_freeable};
ghost use Rattle.rules.specs.Stabilizing.{held_back_by};
ghost use Rattle.ledger.specs.Ledgers.{books_of};

use ledger::Ledger;
use ranges::of_first;
use segment::{FreeableRow, SegmentId};

// The first of what segment n holds back.
pub fn first_held_back(ledger: &Ledger, n: SegmentId) -> Option<FreeableRow>
    ensures { result ≡ first_of (held_back_by n (held ledger.now.freeable)) }
{
    of_first(&ledger.freeable, n).first().copied()
}

// The row goes.
pub fn drop_freeable(ledger: &mut Ledger, row: FreeableRow)
    ensures { books_of ledger.new ≡ with_freeable (remove_row freeable_key by_signed (held ledger.old.freeable) (row.segment, row.lsn)) (books_of ledger.old) }
{
    ledger.freeable.remove((row.segment, row.lsn));
}
