// A ledger with all its room.
ghost use Rattle.std.specs.Prelude.{◌≡◌, [], negsuc, IfOk};
ghost use Rattle.rules.specs.Books.{books};
ghost use Rattle.ledger.specs.Ledgers.{books_of};

use crate::ledger::Ledger;
use crate::segments::Segments;
use std::alloc::{AllocError, Global};
use table::Table;

impl Ledger {
    // No segments and no rows, and the room for all that there may be.
    pub fn new(heap: Global) -> Result<Ledger, AllocError>
        ensures { IfOk result (λ l. books_of l ≡ books 0 [] 0 (negsuc 0) [] [] [] [] [] [] []) }
    {
        Ok(Ledger {
            segment_size: 0,
            segments: Segments::new(heap)?,
            tip: 0,
            max_stabilized_lsn: -1,
            free: Table::new(heap)?,
            ordering: Table::new(heap)?,
            pages: Table::new(heap)?,
            blobs: Table::new(heap)?,
            freeable: Table::new(heap)?,
            listed: Table::new(heap)?,
            faults: Table::new(heap)?,
        })
    }
}

#[cfg(test)]
mod tests {
    use super::*;
    use std::test::Fail;

    #[test]
    fn a_ledger_is_made_with_all_its_room(rt: HostRuntime) -> Result<(), Fail> {
        let ledger = Ledger::new(rt.alloc())?;
        assert_eq!(rt; ledger.segments.len(), 0);
        assert_eq!(rt; ledger.pages.len(), 0);
        assert_eq!(rt; ledger.max_stabilized_lsn, -1);
        Ok(())
    }
}
