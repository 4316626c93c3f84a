// A replacement, as a call hands it over.
ghost use Rattle.std.specs.Prelude.{◌≡◌, not, ◌||◌};
ghost use Rattle.table.specs.Rows.{every};
ghost use Rattle.rules.specs.Links.{out_of_range};

use ledger::out_of_range;
use segment::{CacheInfo, Lsn, PageId};

// Whether the LSN of any entry is out of range.
fn some_outside(infos: &[CacheInfo]) -> bool
    ensures { result ≡ not (every (λ info. not (out_of_range info.lsn)) infos.now) }
{
    infos.iter().any(|info| out_of_range(info.lsn))
}

// A page's old entries, which give way to a new one from this LSN on.
#[derive(Clone, Copy)]
pub struct Replacement<'a> {
    pub page: PageId,
    pub lsn: Lsn,
    pub olds: &'a [CacheInfo],
    pub new: &'a CacheInfo,
}

impl Replacement<'_> {
    // Whether any of its LSNs is out of range.
    pub fn lsns_outside(&self) -> bool
        ensures { result ≡ (out_of_range self.now.lsn || (out_of_range self.now.new.now.lsn || not (every (λ old. not (out_of_range old.lsn)) self.now.olds.now))) }
    {
        out_of_range(self.lsn) || out_of_range(self.new.lsn) || some_outside(self.olds)
    }
}
