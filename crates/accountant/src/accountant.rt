// The accountant: the books and the host, and the room that its calls work in.
ghost use Rattle.orders.specs.Always.{IfAny};
ghost use Rattle.orders.specs.Share.{Shared};
ghost use Rattle.ledger.specs.Ledgers.{books_of};
ghost use Rattle.accountant.specs.Kept.{books_if};

use closing::Ripe;
use entries::Scratch;
use upkeep::World;

/// Decides which segment of the log is written next, which pages have to be rewritten, when the end of the file is cut off and
/// when a blob goes. It owns the host that it asks.
#[derive(Drop)]
pub struct SegmentAccountant<H> {
    pub(crate) world: World<H>,
    // Whether a start was accepted. A flag beside the books, and no Option around them: their room is made before there are any.
    pub(crate) started: bool,
    // Where a replacement is worked out, and where a stabilize gathers what it deactivates.
    pub(crate) scratch: Scratch,
    pub(crate) ripe: Ripe,
    // What the books keep, once there are any.
    ghost kept: { ∥ IfAny Shared (books_if started (books_of world.ledger)) ∥₁ },
}
