// The old segments of a replacement, visited in turn.
ghost use Rattle.std.specs.Prelude.{◌≡◌, true, false, None};
ghost use Rattle.table.specs.Rows.{ascending};
ghost use Rattle.rules.specs.Books.{state_of};
ghost use Rattle.rules.specs.Links.{out_of_range};
ghost use Rattle.rules.specs.Replacing.{from_state, olds_refusal, visited};
ghost use Rattle.orders.specs.Share.{Shared};
ghost use Rattle.ledger.specs.Ledgers.{books_of};
ghost use Rattle.entries.specs.SumKeys.{sum_key};
ghost use Rattle.entries.specs.Sums.{pairs};
ghost use Rattle.upkeep.specs.Worlds.{seen};
ghost use Rattle.replacing.specs.Visits.{visit_of};
ghost use Rattle.std.specs.Ordering.{nat_cmp};

use entries::{SumRow, take_at};
use host::Host;
use segment::{Lsn, PageId};
use upkeep::World;

// The page, with the bytes of the sum, is taken away from its old segment, which is then cleaned.
fn visit<H: Host>(world: &mut World<H>, page: PageId, base: Lsn, sum: &SumRow)
    requires kept { Shared (books_of world.old.ledger) }
    requires range { out_of_range base ≡ false }
    requires passes { from_state (books_of world.old.ledger) sum.now.segment page base sum.now.size (state_of (books_of world.old.ledger) sum.now.segment) ≡ None }
    ensures { seen H.Host.model world.new ≡ visit_of H.Host.respond page base (sum.now.segment, sum.now.size) (seen H.Host.model world.old) }
{
    take_at(&mut world.ledger, sum.segment, page, base, sum.size);
    world.clean(sum.segment);
}

// Each old segment in turn, from the lowest on.
pub fn visit_all<H: Host>(world: &mut World<H>, page: PageId, base: Lsn, sums: &[SumRow])
    requires kept { Shared (books_of world.old.ledger) }
    requires range { out_of_range base ≡ false }
    requires order { ascending sum_key nat_cmp sums.now ≡ true }
    requires passes { olds_refusal (books_of world.old.ledger) page base (pairs sums.now) ≡ None }
    ensures { seen H.Host.model world.new ≡ visited H.Host.respond page base (pairs sums.now) (seen H.Host.model world.old) }
{
    for sum in sums {
        visit(world, page, base, sum);
    }
}
