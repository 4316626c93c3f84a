// The fields of a statement, read as what they stand for.
ghost use Rattle.std.specs.Prelude.{◌≡◌, ℕ, Err, IfErr, List, MatchResult, Ok, Result, slice_index, ◌≢◌};
ghost use Rattle.call_lists.specs.Numbers.{OrNone, Signed, UnsignedOf};
ghost use Rattle.call_lists.specs.Signs.{signed_plain, signed_plus, unsigned_plain, unsigned_plus};
ghost use Rattle.call_lists.specs.declared.reason.Reason.{Reason};
ghost use Rattle.call_lists.specs.declared.reason.Reason.TheVariants.{NotANumber};

use crate::reason::Reason;
use std::num::ParseIntError;
use std::str::FromStr;

// The mark for none.
const NONE: &str = "-";

// A number that a field writes in decimal digits, a signed one with at most a minus in front.
pub(crate) trait Number: FromStr<Err = ParseIntError> {
    // What may be read of a field.
    ghost reads: { List ℕ → Result Self Reason → Type 0 };

    // With no plus in front it is what std reads, and else no number.
    ghost plain: { (bs : List ℕ) (r : _) → (slice_index bs 0 ≢ 43) → Self.FromStr.from_str_gives bs r → MatchResult r (λ n. reads bs (Ok n)) (λ _. reads bs (Err NotANumber)) };

    ghost plus: { (bs : List ℕ) → slice_index bs 0 ≡ 43 → reads bs (Err NotANumber) };
}

// The number of a row's kind.
impl Number for u8 {
    ghost reads = { UnsignedOf 8 };

    ghost plain = { λ bs r n p. unsigned_plain 8 bs r n p.0 };

    ghost plus = { unsigned_plus 8 };
}

impl Number for u64 {
    ghost reads = { UnsignedOf 64 };

    ghost plain = { λ bs r n p. unsigned_plain 64 bs r n p.0 };

    ghost plus = { unsigned_plus 64 };
}

impl Number for i64 {
    ghost reads = { Signed };

    ghost plain = { λ bs r n p. signed_plain bs r n p.0 };

    ghost plus = { signed_plus };
}

pub(crate) fn read_number<N: Number>(field: &str) -> Result<N, Reason>
    ensures value { N.reads field.now result }
    ensures reason { IfErr result (λ e. e ≡ NotANumber) }
{
    if field.starts_with('+') {
        return Err(Reason::NotANumber);
    }
    field.parse::<N>().map_err(|_| Reason::NotANumber)
}

pub(crate) fn read_number_or_none<N: Number>(field: &str) -> Result<Option<N>, Reason>
    ensures { OrNone N.reads field.now result }
{
    if field == NONE {
        Ok(None)
    } else {
        Ok(Some(read_number(field)?))
    }
}
