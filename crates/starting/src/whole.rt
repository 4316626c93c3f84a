// A start: the checks, the recovery, and the freeing of the Free segments.
ghost use Rattle.std.specs.Prelude.{◌≡◌, OnOk};
ghost use Rattle.rules.specs.Starting.{free_all, started_by, started};
ghost use Rattle.orders.specs.Share.{Shared};
ghost use Rattle.ledger.specs.Ledgers.{books_of};
ghost use Rattle.recovery.specs.Plans.{plan_of};
ghost use Rattle.upkeep.specs.Worlds.{seen};
ghost use Rattle.starting.specs.Starts.{Recovered, ended};

use crate::freeing::free_all;
use host::{Host, HostFault};
use ledger::Ledger;
use recovery::{Plan, recover};
use rules::Refusal;
use upkeep::World;

// The Free segments of recovered books are freed; a refused fill or cut ends the start.
fn finish<H: Host>(world: &mut World<H>) -> Result<(), Refusal>
    requires { Recovered (books_of world.old.ledger) }
    ensures { ended result (books_of world.new.ledger) (H.Host.model world.new.host) ≡ started_by H.Host.respond (free_all H.Host.respond 0 (books_of world.old.ledger).segments (seen H.Host.model world.old)) }
{
    free_all(world)?;
    match world.ledger.lowest_fault() {
        Some(fault) => Err(Refusal::Host(fault)),
        None => Ok(()),
    }
}

// A start over the host: answer, books and host after it are those of the rules, and the books keep what books keep.
pub fn start<H: Host>(world: &mut World<H>, plan: &Plan<'_>) -> Result<(), Refusal>
    ensures started { ended result (books_of world.new.ledger) (H.Host.model world.new.host) ≡ started H.Host.respond (plan_of plan.now) (H.Host.slot (H.Host.model world.old.host)) (H.Host.extent (H.Host.model world.old.host)) (H.Host.model world.old.host) }
    ensures kept { OnOk result (Shared (books_of world.new.ledger)) }
{
    let slot = world.host.segment_size();
    let extent = world.host.length();
    recover(&mut world.ledger, plan, slot, extent)?;
    finish(world)
}
