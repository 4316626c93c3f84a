// The checks of a start before any row is placed.
ghost use Rattle.std.specs.Prelude.{◌≡◌, ◌&&◌, nat_eq};
ghost use Rattle.rules.specs.Starting.{is_segment_size, is_header, plan_refusal, segment_count};
ghost use Rattle.recovery.specs.Plans.{plan_of, planned};

use crate::checks::{active_past, is_header, is_segment_size, segment_count};
use crate::snapshots::{covers, forms_pages, lsns_out_of_range};
use rules::Refusal;
use segment::Snapshot;

// What a start is handed.
#[derive(Clone, Copy)]
pub struct Plan<'a> {
    pub segment_size: u64,
    pub header_len: u64,
    pub snapshot: Snapshot<'a>,
}

// Whether the lengths are in range, and the host was made for this segment size.
fn is_setup(segment_size: u64, header_len: u64, slot: u64) -> bool
    ensures { result ≡ (is_segment_size segment_size && (is_header header_len && nat_eq slot segment_size)) }
{
    is_segment_size(segment_size) && is_header(header_len) && slot == segment_size
}

// Checks a start over a host with this segment size and file length. Answers how many segments it has.
pub fn check_plan(plan: &Plan<'_>, slot: u64, extent: u64) -> Result<u64, Refusal>
    ensures { result ≡ planned (plan_refusal (plan_of plan.now) slot extent) (segment_count (plan_of plan.now) extent) }
{
    let Plan {
        segment_size,
        header_len,
        snapshot,
    } = *plan;
    if lsns_out_of_range(snapshot.stable_lsn, snapshot.rows) {
        return Err(Refusal::LsnRange);
    }
    if !is_setup(segment_size, header_len, slot) {
        return Err(Refusal::Setup);
    }
    let count = segment_count(segment_size, snapshot.active_segment, extent);
    if count > 256 {
        return Err(Refusal::TooManySegments);
    }
    if !covers(snapshot.directory, snapshot.rows.len()) {
        return Err(Refusal::Directory);
    }
    if !forms_pages(snapshot.directory, snapshot.rows) {
        return Err(Refusal::PageRows);
    }
    if active_past(segment_size, snapshot.active_segment, count) {
        return Err(Refusal::PastSegments);
    }
    Ok(count)
}
