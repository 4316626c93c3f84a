// What holds of the books after every call, over any host.
ghost use Rattle.orders.specs.Ordered.{Ordered};
ghost use Rattle.orders.specs.Within.{KeptWithin};
ghost use Rattle.orders.specs.Counts.{Counting, Bounded};
ghost use Rattle.orders.specs.Refusals.{RefusalsLeaveAll};
ghost use Rattle.orders.specs.Rooms.{Rooms};
ghost use Rattle.orders.specs.Share.{Shared};
ghost use Rattle.orders.specs.Spread.{Whole};
ghost use Rattle.orders.specs.Always.{Kept, Always};
ghost use Rattle.rules.specs.Books.{Books};

use host::Host;

/// Every table ascends.
pub fn books_stay_ordered<H: Host>()
    ensures kept { Kept H.Host.respond H.Host.slot H.Host.extent Ordered }
    ensures always { Always H.Host.respond H.Host.slot H.Host.extent Ordered }
{}

/// Every table ascends, and every number keeps its bounds.
pub fn books_stay_within<H: Host>()
    ensures kept { Kept H.Host.respond H.Host.slot H.Host.extent KeptWithin }
    ensures always { Always H.Host.respond H.Host.slot H.Host.extent KeptWithin }
{}

/// Besides, the look-ups agree, and the counts of closed segments are true.
pub fn books_stay_bounded<H: Host>()
    ensures kept { Kept H.Host.respond H.Host.slot H.Host.extent Counting }
    ensures always { Always H.Host.respond H.Host.slot H.Host.extent Bounded }
{}

/// The tables without a refusal have no more rows than there are segments.
pub fn tables_have_room()
    ensures { (b : Books) → Whole b → Rooms b }
{}

/// Each segment below the tip is on the free list or in the ordering, and remembered faults have room past it.
pub fn books_stay_spread<H: Host>()
    ensures kept { Kept H.Host.respond H.Host.slot H.Host.extent Whole }
    ensures always { Always H.Host.respond H.Host.slot H.Host.extent Whole }
{}

/// The Free segments below the tip are those on the free list and those held back.
pub fn books_stay_shared<H: Host>()
    ensures kept { Kept H.Host.respond H.Host.slot H.Host.extent Shared }
    ensures always { Always H.Host.respond H.Host.slot H.Host.extent Shared }
{}

/// A call that is refused, but not by the host, leaves the books and the host as they were.
pub fn refusals_leave_all<H: Host>()
    ensures { RefusalsLeaveAll H.Host.respond H.Host.slot H.Host.extent }
{}
