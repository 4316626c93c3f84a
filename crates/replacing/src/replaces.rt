// Replace, whole.
ghost use Rattle.std.specs.Prelude.{◌≡◌, false, Some, None};
ghost use Rattle.table.specs.Held.{held};
ghost use Rattle.segment.specs.Bases.{base_of};
ghost use Rattle.rules.specs.Books.{with_blobs};
ghost use Rattle.rules.specs.Calls as call;
ghost use Rattle.rules.specs.Links.{link_of, link_refusal, out_of_range};
ghost use Rattle.rules.specs.Replacing.{olds_refusal, visited};
ghost use Rattle.orders.specs.Share.{Shared};
ghost use Rattle.ledger.specs.Ledgers.{books_of};
ghost use Rattle.entries.specs.Sums.{pairs};
ghost use Rattle.upkeep.specs.Worlds.{seen};
ghost use Rattle.replacing.specs.Visits.{recorded};

use crate::visiting::visit_all;
use entries::{Replacement, Scratch, check_replace, record_replacement};
use host::Host;
use rules::Refusal;
use segment::base;
use upkeep::World;

// The new entry is linked, the spare rows become the blob rows, and the segments of the sums are visited.
fn carry_out<H: Host>(world: &mut World<H>, scratch: &mut Scratch, r: &Replacement<'_>)
    requires before { Shared (books_of world.old.ledger) }
    requires kept { Shared (with_blobs (held scratch.old.spare.rows) (link_of r.now.page r.now.new.now (books_of world.old.ledger))) }
    requires range { out_of_range r.now.lsn ≡ false }
    requires accepted { link_refusal (books_of world.old.ledger) r.now.page r.now.new.now ≡ None }
    requires passes { olds_refusal (with_blobs (held scratch.old.spare.rows) (link_of r.now.page r.now.new.now (books_of world.old.ledger))) r.now.page (base_of world.old.ledger.segment_size r.now.lsn) (pairs (held scratch.old.sums.rows)) ≡ None }
    ensures { seen H.Host.model world.new ≡ visited H.Host.respond r.now.page (base_of world.old.ledger.segment_size r.now.lsn) (pairs (held scratch.old.sums.rows)) (recorded r.now.page r.now.new.now (held scratch.old.spare.rows) (seen H.Host.model world.old)) }
{
    let base = base(r.lsn, world.ledger.segment_size);
    record_replacement(&mut world.ledger, &mut scratch.spare, r.page, r.new);
    visit_all(world, r.page, base, scratch.sums.rows.rows());
}

// A page's old entries are replaced by the new one, or the call is refused and nothing changes. What the scratch held before does not
// matter.
pub fn replace<H: Host>(
    world: &mut World<H>,
    scratch: &mut Scratch,
    r: &Replacement<'_>,
) -> Result<(), Refusal>
    requires kept { Shared (books_of world.old.ledger) }
    ensures { (result, Some (books_of world.new.ledger), H.Host.model world.new.host) ≡ call.replace H.Host.respond H.Host.slot H.Host.extent r.now.page r.now.lsn r.now.olds.now r.now.new.now (Some (books_of world.old.ledger)) (H.Host.model world.old.host) }
{
    if r.lsns_outside() {
        return Err(Refusal::LsnRange);
    }
    check_replace(&world.ledger, scratch, r)?;
    carry_out(world, scratch, r);
    Ok(())
}
