// Replace: its checks.
ghost use Rattle.std.specs.Prelude.{◌≡◌, ◌<◌, ◌≤◌, true, false, not, [], ◌∷◌, length, None, OnOk, nat_lt};
ghost use Rattle.table.specs.Held.{held};
ghost use Rattle.table.specs.Rows.{every};
ghost use Rattle.segment.specs.Bases.{base_of};
ghost use Rattle.segment.specs.Pointers.{blob_of};
ghost use Rattle.segment.specs.Signs.{same_z};
ghost use Rattle.rules.specs.Links.{first_refusal, info_segment, link_of, link_refusal, out_of_range, too_large};
ghost use Rattle.rules.specs.Replacing.{blob_rows_full, given_up, olds_refusal, replace_refusal, sums_of};
ghost use Rattle.rules.specs.declared.refusal.Refusal.TheVariants as no;
ghost use Rattle.ledger.specs.Ledgers.{books_of};
ghost use Rattle.ledger.specs.Verdicts.{verdict};
ghost use Rattle.entries.specs.Sums.{pairs};

use crate::links::check_link;
use crate::olds::check_olds;
use crate::replacement::Replacement;
use crate::scratch::Scratch;
use crate::spare::SpareBlobs;
use crate::sums::Sums;
use ledger::{Ledger, MAX_SIZE};
use rules::Refusal;
use segment::{CacheInfo, base};

pub const MAX_OLDS: usize = 256;

// Whether any entry is too large.
fn some_too_large(infos: &[CacheInfo]) -> bool
    ensures { result ≡ not (every (λ info. not (too_large info.log_size)) infos.now) }
{
    infos.iter().any(|info| info.log_size > MAX_SIZE)
}

// Why the call itself is refused: its two LSNs differ, or its old entries are too many or too large.
fn check_call(r: &Replacement<'_>) -> Result<(), Refusal>
    ensures { result ≡ verdict (first_refusal ((not (same_z r.now.lsn r.now.new.now.lsn), no.LsnsDiffer) ∷ (nat_lt 256 (length r.now.olds.now), no.TooManyOld) ∷ (not (every (λ old. not (too_large old.log_size)) r.now.olds.now), no.TooLarge) ∷ [])) }
{
    if r.lsn != r.new.lsn {
        return Err(Refusal::LsnsDiffer);
    }
    if r.olds.len() > MAX_OLDS {
        return Err(Refusal::TooManyOld);
    }
    if some_too_large(r.olds) {
        return Err(Refusal::TooLarge);
    }
    Ok(())
}

// Sums up the old sizes, and says why the page may not be replaced in the old segments.
fn check_sums(ledger: &Ledger, sums: &mut Sums, r: &Replacement<'_>) -> Result<(), Refusal>
    requires size { 0 < ledger.now.segment_size }
    requires range { out_of_range r.now.lsn ≡ false }
    requires few { length r.now.olds.now ≤ 256 }
    requires small { every (λ old. not (too_large old.log_size)) r.now.olds.now ≡ true }
    requires accepted { link_refusal (books_of ledger.now) r.now.page r.now.new.now ≡ None }
    ensures answer { result ≡ verdict (olds_refusal (link_of r.now.page r.now.new.now (books_of ledger.now)) r.now.page (base_of ledger.now.segment_size r.now.lsn) (sums_of (books_of ledger.now) r.now.olds.now)) }
    ensures summed { pairs (held sums.new.rows) ≡ sums_of (books_of ledger.now) r.now.olds.now }
{
    sums.sum_up(ledger, r.olds);
    let base = base(r.lsn, ledger.segment_size);
    check_olds(ledger, r.page, base, sums.rows.rows(), r.new)
}

// Fills the spare blob rows, and says whether they would be too many.
fn check_blobs(ledger: &Ledger, spare: &mut SpareBlobs, r: &Replacement<'_>) -> Result<(), Refusal>
    requires size { 0 < ledger.now.segment_size }
    requires few { length r.now.olds.now ≤ 256 }
    requires room { length (held ledger.now.blobs) ≤ 256 }
    ensures answer { result ≡ verdict (first_refusal ((blob_rows_full (books_of ledger.now) (info_segment (books_of ledger.now) r.now.new.now) (blob_of r.now.new.now.pointer) r.now.olds.now, no.BlobRowsFull) ∷ [])) }
    ensures given { held spare.new.rows ≡ given_up (info_segment (books_of ledger.now) r.now.new.now) (blob_of r.now.new.now.pointer) r.now.olds.now (held ledger.now.blobs) }
{
    let n = ledger.segment_id(r.new.pointer.lid());
    spare.fill(&ledger.blobs, n, r.new.pointer.blob(), r.olds);
    spare.check()
}

// Why the page's old entries may not be replaced by the new one. Where they may, the sums and the spare rows are ready.
pub fn check_replace(
    ledger: &Ledger,
    scratch: &mut Scratch,
    r: &Replacement<'_>,
) -> Result<(), Refusal>
    requires size { 0 < ledger.now.segment_size }
    requires range { out_of_range r.now.lsn ≡ false }
    requires new_range { out_of_range r.now.new.now.lsn ≡ false }
    requires room { length (held ledger.now.blobs) ≤ 256 }
    ensures answer { result ≡ verdict (replace_refusal (books_of ledger.now) r.now.page r.now.lsn r.now.olds.now r.now.new.now) }
    ensures summed { OnOk result (pairs (held scratch.new.sums.rows) ≡ sums_of (books_of ledger.now) r.now.olds.now) }
    ensures given { OnOk result (held scratch.new.spare.rows ≡ given_up (info_segment (books_of ledger.now) r.now.new.now) (blob_of r.now.new.now.pointer) r.now.olds.now (held ledger.now.blobs)) }
{
    check_call(r)?;
    check_link(ledger, r.page, r.new)?;
    check_sums(ledger, &mut scratch.sums, r)?;
    check_blobs(ledger, &mut scratch.spare, r)
}
