// The segments that a segment held back are freed.
ghost use Rattle.std.specs.Prelude.{◌≡◌, ◌<◌};
ghost use Rattle.std.specs.List.{ContainsAt as Has};
ghost use Rattle.rules.specs.Stabilizing.{held_back_by, release, release_all};
ghost use Rattle.orders.specs.Share.{Shared};
ghost use Rattle.ledger.specs.Ledgers.{books_of};
ghost use Rattle.upkeep.specs.Worlds.{seen};

use crate::world::World;
use closing::{drop_freeable, first_held_back, number_of_lsn};
use host::Host;
use segment::{FreeableRow, SegmentId};

impl<H: Host> World<H> {
    // The segment of a freeable row is freed, and the row goes.
    fn release(&mut self, row: FreeableRow)
        requires there { Has (books_of self.old.ledger).freeable row }
        requires kept { Shared (books_of self.old.ledger) }
        ensures { seen H.Host.model self.new ≡ release H.Host.respond row (seen H.Host.model self.old) }
    {
        let n = number_of_lsn(&self.ledger, row.lsn);
        drop_freeable(&mut self.ledger, row);
        self.free(n);
    }

    // All that segment n holds back is freed.
    pub(crate) fn release_all(&mut self, n: SegmentId)
        requires { Shared (books_of self.old.ledger) }
        ensures { seen H.Host.model self.new ≡ release_all H.Host.respond (held_back_by n (books_of self.old.ledger).freeable) (seen H.Host.model self.old) }
    {
        while let Some(row) = first_held_back(&self.ledger, n) {
            self.release(row);
        }
    }
}
