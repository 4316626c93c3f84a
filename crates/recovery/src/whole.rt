// A start up to the freeing of its segments.
ghost use Rattle.std.specs.Prelude.{◌≡◌, ◌≤◌, true, false, pos};
ghost use Rattle.std.specs.Option.{unwrap_or};
ghost use Rattle.rules.specs.Starting.{is_segment_size, stable_out_of_range, plan_refusal, blank, with_active};
ghost use Rattle.ledger.specs.Ledgers.{books_of};
ghost use Rattle.recovery.specs.Begun.{Accepted, recovered_with, recovered_if};
ghost use Rattle.recovery.specs.Outcomes.{outcome};
ghost use Rattle.recovery.specs.Plans.{plan_of, sized, Reaches};

use crate::blanks::blank;
use crate::opening::open_active;
use crate::ordering::order_all;
use crate::plan::{Plan, check_plan};
use crate::recovering::recover_pages;
use ledger::Ledger;
use rules::Refusal;
use segment::{LogOffset, Lsn, Snapshot};

// The books before any row is recovered: only the segment of the active offset is Active.
fn begin(
    ledger: &mut Ledger,
    segment_size: u64,
    active: Option<LogOffset>,
    stable: Option<Lsn>,
    count: u64,
)
    requires size { is_segment_size segment_size ≡ true }
    requires few { count ≤ 256 }
    requires stable { stable_out_of_range stable ≡ false }
    requires reached { Reaches segment_size active count }
    ensures { books_of ledger.new ≡ with_active active (unwrap_or stable (pos 0)) (blank (sized segment_size active) count) }
{
    blank(ledger, segment_size, count);
    open_active(ledger, active, stable.unwrap_or(0));
}

// A start that the checks let pass, with so many segments: rows in turn, then the ordering.
pub fn recover_with(ledger: &mut Ledger, plan: &Plan<'_>, count: u64) -> Result<(), Refusal>
    requires { Accepted (plan_of plan.now) count }
    ensures { outcome result (books_of ledger.new) ≡ recovered_with (plan_of plan.now) count }
{
    let Snapshot {
        active_segment,
        stable_lsn,
        ..
    } = plan.snapshot;
    begin(ledger, plan.segment_size, active_segment, stable_lsn, count);
    recover_pages(ledger, plan)?;
    order_all(ledger)
}

// A start over a host with this segment size and file length, up to the freeing of its segments.
pub fn recover(ledger: &mut Ledger, plan: &Plan<'_>, slot: u64, extent: u64) -> Result<(), Refusal>
    ensures { outcome result (books_of ledger.new) ≡ recovered_if (plan_refusal (plan_of plan.now) slot extent) (plan_of plan.now) extent }
{
    let count = check_plan(plan, slot, extent)?;
    recover_with(ledger, plan, count)
}
