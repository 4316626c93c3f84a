// Cleaning a segment: it starts draining, and is held back or freed once none of its pages is left.
ghost use Rattle.std.specs.Prelude.{◌≡◌};
ghost use Rattle.rules.specs.Books.{world};
ghost use Rattle.rules.specs.Cleaning.{free_if_left, cleaned, drain_if_empty};
ghost use Rattle.orders.specs.Share.{Shared};
ghost use Rattle.ledger.specs.Ledgers.{books_of};
ghost use Rattle.upkeep.specs.Worlds.{seen};

use crate::draining::{all_left, drain_if_empty, empty, hold, holder};
use crate::world::World;
use host::Host;
use segment::SegmentId;

impl<H: Host> World<H> {
    // Segment n becomes Free if it is Draining and none of its pages is left: it is held back by the Active segment of its latest
    // replacement, or else freed.
    fn free_if_left(&mut self, n: SegmentId)
        requires { Shared (books_of self.old.ledger) }
        ensures { seen H.Host.model self.new ≡ free_if_left H.Host.respond n (seen H.Host.model self.old) }
    {
        if let Some(latest) = all_left(&self.ledger, n) {
            let holder = holder(&self.ledger, latest);
            let lsn = empty(&mut self.ledger, n);
            match holder {
                Some(t) => hold(&mut self.ledger, t, lsn),
                None => self.free(n),
            }
        }
    }

    // Segment n is cleaned.
    pub fn clean(&mut self, n: SegmentId)
        requires { Shared (books_of self.old.ledger) }
        ensures { seen H.Host.model self.new ≡ cleaned H.Host.respond n (seen H.Host.model self.old) }
    {
        drain_if_empty(&mut self.ledger, n);
        self.free_if_left(n);
    }
}
