// What the calls do, each equal to its rule.
ghost use Rattle.std.specs.Prelude.{◌≡◌, not, ◌&&◌, pos, int_lt};
ghost use Rattle.rules.specs.Calls as call;
ghost use Rattle.rules.specs.Links.{out_of_range};
ghost use Rattle.recovery.specs.Plans.{plan_of};
ghost use Rattle.accountant.specs.Accounts.{books_in, host_in};

use crate::accountant::SegmentAccountant;
use entries::{Replacement, out_of_range};
use host::Host;
use recovery::Plan;
use replacing::{link, replace};
use rules::Refusal;
use segment::{CacheInfo, LogOffset, Lsn, PageId, Snapshot};
use starting::start;

// Whether a stabilize may not have this LSN: a negative one passes.
fn is_outside(lsn: Lsn) -> bool
    ensures { result ≡ (not (int_lt lsn (pos 0)) && out_of_range lsn) }
{
    lsn >= 0 && out_of_range(lsn)
}

impl<H: Host> SegmentAccountant<H> {
    pub(crate) fn do_next(&mut self, lsn: Lsn) -> Result<LogOffset, Refusal>
        ensures { (result, books_in self.new, H.Host.model (host_in self.new)) ≡ call.next H.Host.respond H.Host.slot H.Host.extent lsn (books_in self.old) (H.Host.model (host_in self.old)) }
    {
        if !self.started {
            return Err(Refusal::OutOfTurn);
        }
        if out_of_range(lsn) {
            return Err(Refusal::LsnRange);
        }
        self.world.ledger.next_at(lsn)
    }

    pub(crate) fn do_stabilize(&mut self, lsn: Lsn) -> Result<(), Refusal>
        ensures { (result, books_in self.new, H.Host.model (host_in self.new)) ≡ call.stabilize H.Host.respond H.Host.slot H.Host.extent lsn (books_in self.old) (H.Host.model (host_in self.old)) }
    {
        if !self.started {
            return Err(Refusal::OutOfTurn);
        }
        if is_outside(lsn) {
            return Err(Refusal::LsnRange);
        }
        self.world.stabilize(lsn, &mut self.ripe)?;
        Ok(())
    }

    pub(crate) fn do_pop(&mut self) -> Result<Option<(PageId, LogOffset)>, Refusal>
        ensures { (result, books_in self.new, H.Host.model (host_in self.new)) ≡ call.pop H.Host.respond H.Host.slot H.Host.extent (books_in self.old) (H.Host.model (host_in self.old)) }
    {
        if !self.started {
            return Err(Refusal::OutOfTurn);
        }
        Ok(self.world.ledger.pop_page())
    }

    pub(crate) fn do_link(&mut self, page: PageId, info: &CacheInfo) -> Result<(), Refusal>
        ensures { (result, books_in self.new, H.Host.model (host_in self.new)) ≡ call.link H.Host.respond H.Host.slot H.Host.extent page info.now (books_in self.old) (H.Host.model (host_in self.old)) }
    {
        if !self.started {
            return Err(Refusal::OutOfTurn);
        }
        link(&mut self.world.ledger, page, info)
    }

    pub(crate) fn do_replace(
        &mut self,
        page: PageId,
        lsn: Lsn,
        old: &[CacheInfo],
        new: &CacheInfo,
    ) -> Result<(), Refusal>
        ensures { (result, books_in self.new, H.Host.model (host_in self.new)) ≡ call.replace H.Host.respond H.Host.slot H.Host.extent page lsn old.now new.now (books_in self.old) (H.Host.model (host_in self.old)) }
    {
        if !self.started {
            return Err(Refusal::OutOfTurn);
        }
        let replacement = Replacement {
            page,
            lsn,
            olds: old,
            new,
        };
        replace(&mut self.world, &mut self.scratch, &replacement)
    }

    pub(crate) fn do_start(
        &mut self,
        segment_size: u64,
        header_len: u64,
        snapshot: Snapshot<'_>,
    ) -> Result<(), Refusal>
        ensures { (result, books_in self.new, H.Host.model (host_in self.new)) ≡ call.start H.Host.respond H.Host.slot H.Host.extent (plan_of (record { segment_size = segment_size; header_len = header_len; snapshot = snapshot.entry })) (books_in self.old) (H.Host.model (host_in self.old)) }
    {
        if self.started {
            return Err(Refusal::OutOfTurn);
        }
        let plan = Plan {
            segment_size,
            header_len,
            snapshot,
        };
        start(&mut self.world, &plan)?;
        self.started = true;
        Ok(())
    }
}
