// Why a call is refused.
ghost use Rattle.std.specs.Prelude.{◌≡◌};
ghost use Rattle.rules.specs.Refusals.{by_host, number_of};

use host::HostFault;

/// Why a call is refused. The number of each is its place in the table of refusals.
#[derive(Clone, Copy)]
pub enum Refusal {
    Setup,
    TooManySegments,
    Directory,
    PageRows,
    PastSegments,
    RowBase,
    SameLsn,
    Unaligned,
    BelowOffset,
    LsnInUse,
    FileFull,
    LsnRange,
    NoSegment,
    OtherBase,
    NotActive,
    PageLeft,
    TooLarge,
    PageRowsFull,
    LsnsDiffer,
    TooManyOld,
    BaseTooLow,
    PageAbsent,
    MoreThanLive,
    BlobRowsFull,
    Host(HostFault),
    OutOfTurn,
}

impl From<HostFault> for Refusal {
    ghost from_gives = { λ f r. r ≡ by_host f };

    fn from(fault: HostFault) -> Refusal {
        Refusal::Host(fault)
    }
}

impl Refusal {
    /// The number of the refusal.
    // A match and no cast: one case carries a value, and an enum with such a case has no number of its own.
    pub fn number(&self) -> u8
        ensures { result ≡ number_of self.now }
    {
        match self {
            Refusal::Setup => 1,
            Refusal::TooManySegments => 2,
            Refusal::Directory => 3,
            Refusal::PageRows => 4,
            Refusal::PastSegments => 5,
            Refusal::RowBase => 6,
            Refusal::SameLsn => 7,
            Refusal::Unaligned => 8,
            Refusal::BelowOffset => 9,
            Refusal::LsnInUse => 10,
            Refusal::FileFull => 11,
            Refusal::LsnRange => 12,
            Refusal::NoSegment => 13,
            Refusal::OtherBase => 14,
            Refusal::NotActive => 15,
            Refusal::PageLeft => 16,
            Refusal::TooLarge => 17,
            Refusal::PageRowsFull => 18,
            Refusal::LsnsDiffer => 19,
            Refusal::TooManyOld => 20,
            Refusal::BaseTooLow => 21,
            Refusal::PageAbsent => 22,
            Refusal::MoreThanLive => 23,
            Refusal::BlobRowsFull => 24,
            Refusal::Host(_) => 25,
            Refusal::OutOfTurn => 28,
        }
    }
}
