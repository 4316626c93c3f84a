// The checks of single numbers.
ghost use Rattle.std.specs.Prelude.{◌≡◌, ◌≤◌};
ghost use Rattle.rules.specs.Starting.{is_segment_size, is_header, in_segments, segment_count, active_past};
ghost use Rattle.recovery.specs.Plans.{sized};

use segment::LogOffset;

// A power of two from 256 to 16,777,216.
pub fn is_segment_size(size: u64) -> bool
    ensures { result ≡ is_segment_size size }
{
    size >= 256 && size <= 16_777_216 && size.count_ones() == 1
}

pub fn is_header(header_len: u64) -> bool
    ensures { result ≡ is_header header_len }
{
    header_len >= 1 && header_len <= 4096
}

// A length in segments, rounded up.
fn in_segments(segment_size: u64, extent: u64) -> u64
    requires { 256 ≤ segment_size }
    ensures { result ≡ in_segments segment_size extent }
{
    extent.div_ceil(segment_size)
}

// The segments of a file, and one more for an active offset in exactly the next.
pub fn segment_count(segment_size: u64, active: Option<LogOffset>, extent: u64) -> u64
    requires { 256 ≤ segment_size }
    ensures { result ≡ segment_count (sized segment_size active) extent }
{
    let whole = in_segments(segment_size, extent);
    match active {
        Some(offset) if offset / segment_size == whole => whole + 1,
        _ => whole,
    }
}

// Whether the active offset lies past so many segments.
pub fn active_past(segment_size: u64, active: Option<LogOffset>, count: u64) -> bool
    requires { 256 ≤ segment_size }
    ensures { result ≡ active_past (sized segment_size active) count active }
{
    active.is_some_and(|offset| offset / segment_size >= count)
}
