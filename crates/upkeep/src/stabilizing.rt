// What is stable is deactivated.
ghost use Rattle.std.specs.Prelude.{◌≡◌, ◌<◌, false, not, ◌&&◌, pos, int_lt};
ghost use Rattle.segment.specs.declared.state.Active.{Active as ActiveRecord};
ghost use Rattle.segment.specs.declared.state.State.TheVariants as is;
ghost use Rattle.rules.specs.Books.{state_of, with_stabilized, world};
ghost use Rattle.rules.specs.Links.{out_of_range};
ghost use Rattle.rules.specs.Stabilizing.{drained_by_share, remove_blobs, opened_up, shut, shared, deactivated, deactivate_all, stabilized_at};
ghost use Rattle.orders.specs.Share.{Shared};
ghost use Rattle.ledger.specs.Ledgers.{books_of};
ghost use Rattle.upkeep.specs.Worlds.{seen};

use crate::draining::{is_active_at, start_draining};
use crate::world::World;
use closing::{
    Ripe, blobs_of, close_at, drop_blobs, gather_ripe, is_settled, level, number_of_lsn,
    share_drains,
};
use host::{Host, HostFault};
use ledger::Ledger;
use segment::{BlobRow, Lsn, OrderingRow, SegmentId};

// The blobs are removed in turn, until the host refuses one.
fn remove_blobs<H: Host>(host: &mut H, rows: &[BlobRow]) -> Result<(), HostFault>
    ensures { (result, H.Host.model host.new) ≡ remove_blobs H.Host.respond rows.now (H.Host.model host.old) }
{
    for row in rows {
        host.remove(row.blob)?;
    }
    Ok(())
}

// Where much is free, the last Inactive segment starts draining.
fn drain_by_share(ledger: &mut Ledger)
    requires { Shared (books_of ledger.old) }
    ensures { books_of ledger.new ≡ drained_by_share (books_of ledger.old) }
{
    if let Some(n) = share_drains(ledger) {
        start_draining(ledger, n);
    }
}

// The level up to which all is stable.
fn store(ledger: &mut Ledger, level: Lsn)
    ensures { books_of ledger.new ≡ with_stabilized level (books_of ledger.old) }
{
    ledger.max_stabilized_lsn = level;
}

impl<H: Host> World<H> {
    // Segment n, which is Active and whose blobs are removed: what it holds back is freed, it becomes Inactive, it is cleaned, and the
    // share is looked at.
    fn close(&mut self, n: SegmentId)
        requires active { (a : ActiveRecord) × (state_of (books_of self.old.ledger) n ≡ is.Active a) }
        requires kept { Shared (books_of self.old.ledger) }
        ensures { (a : ActiveRecord) → state_of (books_of self.old.ledger) n ≡ is.Active a → seen H.Host.model self.new ≡ shared H.Host.respond (shut H.Host.respond n a (opened_up H.Host.respond n (books_of self.old.ledger) (H.Host.model self.old.host))) }
    {
        drop_blobs(&mut self.ledger, n);
        self.release_all(n);
        close_at(&mut self.ledger, n);
        self.clean(n);
        drain_by_share(&mut self.ledger);
    }

    // The segment of an LSN is deactivated.
    fn deactivate(&mut self, lsn: Lsn) -> Result<(), HostFault>
        requires { Shared (books_of self.old.ledger) }
        ensures { (result, seen H.Host.model self.new) ≡ deactivated H.Host.respond lsn (seen H.Host.model self.old) }
    {
        let n = number_of_lsn(&self.ledger, lsn);
        if !is_active_at(&self.ledger, n) {
            return Ok(());
        }
        remove_blobs(&mut self.host, blobs_of(&self.ledger, n))?;
        self.close(n);
        Ok(())
    }

    // One after the other, until the host refuses a removal.
    fn deactivate_all(&mut self, rows: &[OrderingRow]) -> Result<(), HostFault>
        requires { Shared (books_of self.old.ledger) }
        ensures { (result, seen H.Host.model self.new) ≡ deactivate_all H.Host.respond rows.now (seen H.Host.model self.old) }
    {
        for row in rows {
            self.deactivate(row.lsn)?;
        }
        Ok(())
    }

    // All of the log below the LSN is stable. `ripe` is where the segments to deactivate are gathered.
    pub fn stabilize(&mut self, lsn: Lsn, ripe: &mut Ripe) -> Result<(), HostFault>
        requires lsn { (not (int_lt lsn (pos 0)) && out_of_range lsn) ≡ false }
        requires kept { Shared (books_of self.old.ledger) }
        ensures { (result, seen H.Host.model self.new) ≡ stabilized_at H.Host.respond lsn (seen H.Host.model self.old) }
    {
        if is_settled(&self.ledger, lsn) {
            return Ok(());
        }
        let level = level(lsn, self.ledger.segment_size);
        gather_ripe(&self.ledger, ripe, level);
        store(&mut self.ledger, level);
        self.deactivate_all(ripe.rows.as_slice())
    }
}
