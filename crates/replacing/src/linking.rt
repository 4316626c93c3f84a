// Link, whole.
ghost use Rattle.std.specs.Prelude.{◌≡◌, Some};
ghost use Rattle.rules.specs.Calls as call;
ghost use Rattle.orders.specs.Share.{Shared};
ghost use Rattle.ledger.specs.Ledgers.{books_of};
ghost use Rattle.replacing.specs.Silent.{silent, nothing};

use entries::{check_link, link as record_link, out_of_range};
use ledger::Ledger;
use rules::Refusal;
use segment::{CacheInfo, PageId};

// An entry of this page is linked, or refused and nothing changes. No host is asked, and so one that says nothing stands for any.
pub fn link(ledger: &mut Ledger, page: PageId, info: &CacheInfo) -> Result<(), Refusal>
    requires kept { Shared (books_of ledger.old) }
    ensures { (result, Some (books_of ledger.new), tt) ≡ call.link silent nothing nothing page info.now (Some (books_of ledger.old)) tt }
{
    if out_of_range(info.lsn) {
        return Err(Refusal::LsnRange);
    }
    check_link(ledger, page, info)?;
    record_link(ledger, page, info);
    Ok(())
}
