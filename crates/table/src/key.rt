// Keys: values in a total order, which the rows of a table are sorted by. A trait of its own: `Ord` has no law that keys which compare
// equal are one key.
ghost use Rattle.std.specs.Prelude.{◌≡◌};
ghost use Rattle.std.specs.declared.cmp.Ordering.{Ordering};
ghost use Rattle.table.specs.Order.{Lawful, unsigned_lawful, signed_lawful, lexical, lexical_lawful};
ghost use Rattle.std.specs.Ordering.{int_cmp, nat_cmp};

use std::cmp::Ordering;

pub trait Key: Copy {
    ghost rank: { Self → Self → Ordering };

    ghost lawful: { Lawful rank };

    fn compare(self, other: Self) -> Ordering
        ensures { result ≡ rank self other };
}

impl Key for u64 {
    ghost rank = { nat_cmp };

    ghost lawful = { unsigned_lawful };

    fn compare(self, other: u64) -> Ordering {
        self.cmp(&other)
    }
}

impl Key for i64 {
    ghost rank = { int_cmp };

    ghost lawful = { signed_lawful };

    fn compare(self, other: i64) -> Ordering {
        self.cmp(&other)
    }
}

// The first part decides, and the second where the first ones are equal.
impl<A: Key, B: Key> Key for (A, B) {
    ghost rank = { lexical A.Key.rank B.Key.rank };

    ghost lawful = { lexical_lawful A.Key.lawful B.Key.lawful };

    fn compare(self, other: (A, B)) -> Ordering {
        // No `then_with`: to choose between two answers is quicker than to branch.
        self.0.compare(other.0).then(self.1.compare(other.1))
    }
}
