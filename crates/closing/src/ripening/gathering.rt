// The ordering rows above the old level and up to the new one.
ghost use Rattle.std.specs.Prelude.{◌≡◌, ◌^◌, ◌≤◌, [], length, pos, ◌≤ℤ◌, IfOk, vec_capacity};
ghost use Rattle.table.specs.Held.{held};
ghost use Rattle.rules.specs.Stabilizing.{ripe};

use super::Ripe;
use ledger::Ledger;
use ranges::between;
use segment::{Lsn, OrderingRow};
use std::alloc::{AllocError, Global};

impl Ripe {
    pub fn new(heap: Global) -> Result<Ripe, AllocError>
        ensures { IfOk result (λ x. x.rows.items ≡ []) }
    {
        let rows = Vec::with_capacity(heap, 256)?;
        Ok(Ripe { rows })
    }
}

// Holds these rows and no others.
fn refill(rows: &mut Vec<OrderingRow>, with: &[OrderingRow])
    requires { length with.now ≤ vec_capacity rows.old }
    ensures items { rows.new.items ≡ with.now }
    ensures cap { vec_capacity rows.old ≤ vec_capacity rows.new }
{
    rows.clear();
    let _ = rows.extend_from_slice(with);
}

// The rows that the ordering has above the stored level and up to this one.
pub fn gather_ripe(ledger: &Ledger, into: &mut Ripe, level: Lsn)
    requires old { ledger.now.max_stabilized_lsn ≤ℤ pos (2 ^ 62) }
    requires new { level ≤ℤ pos (2 ^ 62) }
    ensures { into.new.rows.items ≡ ripe ledger.now.max_stabilized_lsn level (held ledger.now.ordering) }
{
    let from = ledger.max_stabilized_lsn + 1;
    refill(&mut into.rows, between(&ledger.ordering, from, level + 1));
}
