// Rows: each has a key, and a table holds one row of a key at most.
ghost use Rattle.std.specs.Prelude.{◌≡◌};
ghost use Rattle.table.specs.Rows.{own_key};

use crate::Key;

pub trait Row: Copy {
    type Key: Key;

    ghost keyed: { Self → Self.Key };

    fn key(&self) -> Self::Key
        ensures { result ≡ keyed self.now };
}

// A number can be a row that is its own key.
impl Row for u64 {
    type Key = u64;

    ghost keyed = { own_key };

    fn key(&self) -> u64 {
        *self
    }
}
