// The Free segments of recovered books are freed in turn, and filled.
ghost use Rattle.std.specs.Prelude.{◌≡◌, ◌*◌, ◌^◌, ◌<◌, true, length};
ghost use Rattle.rules.specs.Books.{state_of};
ghost use Rattle.rules.specs.Freeing.{put_free};
ghost use Rattle.rules.specs.Stabilizing.{is_free};
ghost use Rattle.rules.specs.Starting.{filled, free_state, free_all};
ghost use Rattle.orders.specs.Within.{KeptWithin};
ghost use Rattle.ledger.specs.Ledgers.{books_of};
ghost use Rattle.upkeep.specs.Worlds.{seen};
ghost use Rattle.starting.specs.Starts.{Recovered};

use host::{Host, HostFault};
use ledger::Ledger;
use segment::{SegmentId, State};
use upkeep::World;

// Whether segment n is Free; one that is not reached is.
fn is_free(ledger: &Ledger, n: SegmentId) -> bool
    ensures { result ≡ is_free (state_of (books_of ledger.now) n) }
{
    matches!(ledger.state(n), None | Some(State::Free(_)))
}

// The host is asked to fill segment n, unless its cut was just asked: then the tip is not above it.
fn fill_at<H: Host>(world: &mut World<H>, n: SegmentId) -> Result<(), HostFault>
    requires { n * world.old.ledger.segment_size < 2 ^ 64 }
    ensures { (result, seen H.Host.model world.new) ≡ filled H.Host.respond n (seen H.Host.model world.old) }
{
    let offset = n * world.ledger.segment_size;
    if world.ledger.tip <= offset {
        return Ok(());
    }
    world.host.fill(offset)
}

// Segment n is freed and filled if it is Free.
fn free_state<H: Host>(world: &mut World<H>, n: SegmentId) -> Result<(), HostFault>
    requires reached { n < length (books_of world.old.ledger).segments }
    requires kept { is_free (state_of (books_of world.old.ledger) n) ≡ true → KeptWithin (put_free n (books_of world.old.ledger)) }
    ensures { (result, seen H.Host.model world.new) ≡ free_state H.Host.respond n (state_of (books_of world.old.ledger) n) (seen H.Host.model world.old) }
{
    if !is_free(&world.ledger, n) {
        return Ok(());
    }
    world.free(n);
    fill_at(world, n)
}

// The segments in turn, until the host refuses a fill. By number: freeing one changes the ledger, which an iterator would borrow.
pub fn free_all<H: Host>(world: &mut World<H>) -> Result<(), HostFault>
    requires { Recovered (books_of world.old.ledger) }
    ensures { (result, seen H.Host.model world.new) ≡ free_all H.Host.respond 0 (books_of world.old.ledger).segments (seen H.Host.model world.old) }
{
    for n in 0..world.ledger.segments.len() {
        free_state(world, n as SegmentId)?;
    }
    Ok(())
}
