// What an accepted link does, and an accepted replacement before its old segments are visited.
ghost use Rattle.std.specs.Prelude.{◌≡◌, ◌<◌, None};
ghost use Rattle.table.specs.Held.{held};
ghost use Rattle.rules.specs.Books.{with_blobs};
ghost use Rattle.rules.specs.Links.{link_of, link_refusal};
ghost use Rattle.ledger.specs.Ledgers.{books_of};

use crate::spare::SpareBlobs;
use ledger::Ledger;
use segment::{CacheInfo, PageId};
use std::mem;

// The entry is written into its segment.
pub fn link(ledger: &mut Ledger, page: PageId, info: &CacheInfo)
    requires size { 0 < ledger.old.segment_size }
    requires accepted { link_refusal (books_of ledger.old) page info.now ≡ None }
    ensures { books_of ledger.new ≡ link_of page info.now (books_of ledger.old) }
{
    let n = ledger.segment_id(info.pointer.lid());
    ledger.link_at(n, page, info.log_size);
}

// The spare rows become the ledger's blob rows.
fn adopt_blobs(ledger: &mut Ledger, spare: &mut SpareBlobs)
    ensures { books_of ledger.new ≡ with_blobs (held spare.old.rows) (books_of ledger.old) }
{
    mem::swap(&mut ledger.blobs, &mut spare.rows);
}

// The new entry is linked, and the blobs of the old ones are given up as the spare rows say.
pub fn record_replacement(
    ledger: &mut Ledger,
    spare: &mut SpareBlobs,
    page: PageId,
    new: &CacheInfo,
)
    requires size { 0 < ledger.old.segment_size }
    requires accepted { link_refusal (books_of ledger.old) page new.now ≡ None }
    ensures { books_of ledger.new ≡ with_blobs (held spare.old.rows) (link_of page new.now (books_of ledger.old)) }
{
    link(ledger, page, new);
    adopt_blobs(ledger, spare);
}
