// Freeing a segment, and cutting the free ones off the end of the file.
ghost use Rattle.std.specs.Prelude.{◌≡◌, ◌<◌, true, length};
ghost use Rattle.rules.specs.Books.{world};
ghost use Rattle.rules.specs.Freeing.{put_free, can_cut, cut_once, cut_tail, freed};
ghost use Rattle.orders.specs.Within.{KeptWithin};
ghost use Rattle.ledger.specs.Ledgers.{books_of};
ghost use Rattle.upkeep.specs.Worlds.{seen};

use crate::world::World;
use host::Host;
use segment::SegmentId;

impl<H: Host> World<H> {
    // The last segment below the tip goes, and the host is asked to cut there.
    fn cut_once(&mut self)
        requires kept { KeptWithin (books_of self.old.ledger) }
        requires can { can_cut (books_of self.old.ledger) ≡ true }
        ensures { seen H.Host.model self.new ≡ cut_once H.Host.respond (seen H.Host.model self.old) }
    {
        let offset = self.ledger.lower_tip();
        if let Err(fault) = self.host.cut(offset) {
            self.ledger.remember(offset, fault);
        }
    }

    // While the last segment below the tip is free, and not the only one that is, it goes.
    fn cut_tail(&mut self)
        requires { KeptWithin (books_of self.old.ledger) }
        ensures { seen H.Host.model self.new ≡ cut_tail H.Host.respond (length (books_of self.old.ledger).free) (seen H.Host.model self.old) }
    {
        while self.ledger.can_cut() {
            self.cut_once();
        }
    }

    // Segment n, which is Free, is freed.
    pub fn free(&mut self, n: SegmentId)
        requires reached { n < length (books_of self.old.ledger).segments }
        requires kept { KeptWithin (put_free n (books_of self.old.ledger)) }
        ensures { seen H.Host.model self.new ≡ freed H.Host.respond n (seen H.Host.model self.old) }
    {
        self.ledger.put_free(n);
        self.cut_tail();
    }
}
