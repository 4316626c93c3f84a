// The Active segments enter the ordering.
ghost use Rattle.std.specs.Prelude.{◌≡◌, ◌+◌, ◌*◌, ◌^◌, ◌<◌, ◌≤◌, length};
ghost use Rattle.table.specs.Held.{held};
ghost use Rattle.rules.specs.Starting.{order_state, order_all, ordered};
ghost use Rattle.ledger.specs.Ledgers.{books_of};
ghost use Rattle.ledger.specs.States.{states};
ghost use Rattle.recovery.specs.Outcomes.{outcome};
ghost use Rattle.recovery.specs.Recoverable.{Recoverable};

use ledger::{Ledger, MAX_SEGMENTS, put};
use rules::Refusal;
use segment::{LogOffset, OrderingRow, Segment, State};
use table::Table;

// A segment at this offset enters the ordering if it is Active, unless one with its LSN is there.
fn order_state(
    ordering: &mut Table<OrderingRow, MAX_SEGMENTS>,
    state: &State,
    offset: LogOffset,
) -> Result<(), Refusal>
    requires { length (held ordering.old) < 256 }
    ensures more { length (held ordering.new) ≤ length (held ordering.old) + 1 }
    ensures rows { outcome result (held ordering.new) ≡ order_state offset state.now (held ordering.old) }
{
    let State::Active(active) = state else {
        return Ok(());
    };
    if ordering.get(active.lsn).is_some() {
        return Err(Refusal::SameLsn);
    }
    let lsn = active.lsn;
    put(ordering, OrderingRow { lsn, offset });
    Ok(())
}

// All segments enter in turn, those that are Active.
fn order_segments(
    ordering: &mut Table<OrderingRow, MAX_SEGMENTS>,
    segments: &[Segment],
    segment_size: u64,
) -> Result<(), Refusal>
    requires room { length (held ordering.old) + length segments.now ≤ 256 }
    requires fits { length segments.now * segment_size < 2 ^ 64 }
    ensures rows { outcome result (held ordering.new) ≡ order_all segment_size 0 (states segments.now) (held ordering.old) }
{
    for (n, segment) in segments.iter().enumerate() {
        order_state(ordering, &segment.state, n as u64 * segment_size)?;
    }
    Ok(())
}

// The ordering is made of the Active segments.
pub fn order_all(ledger: &mut Ledger) -> Result<(), Refusal>
    requires { Recoverable (books_of ledger.old) }
    ensures { outcome result (books_of ledger.new) ≡ ordered (books_of ledger.old) }
{
    order_segments(
        &mut ledger.ordering,
        ledger.segments.as_slice(),
        ledger.segment_size,
    )
}
