// The range of LSNs. They come as plain numbers in calls, rows and entries, and are tested once for each call.
ghost use Rattle.std.specs.Prelude.{◌≡◌};
ghost use Rattle.rules.specs.Links.{out_of_range};

use segment::Lsn;

// 2^62: every LSN lies below it.
const LSN_LIMIT: Lsn = 4_611_686_018_427_387_904;

// Whether an LSN is below 0 or above 2^62 − 1.
pub fn out_of_range(lsn: Lsn) -> bool
    ensures { result ≡ out_of_range lsn }
{
    lsn < 0 || lsn >= LSN_LIMIT
}
