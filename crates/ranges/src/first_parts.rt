// The rows of a table whose keys are pairs with one first part.
ghost use Rattle.std.specs.Prelude.{◌≡◌, ◌≤◌, ◌+◌, ◌-◌, true, not, ◌++◌, length, take, drop, filter};
ghost use Rattle.std.specs.Ordering.{is_eq};
ghost use Rattle.table.specs.Held.{held};
ghost use Rattle.table.specs.Order.{lexical};
ghost use Rattle.table.specs.Ranges.{count_lower, of_first};
ghost use Rattle.table.specs.Rows.{ascending};

use table::{Key, Row, Table};

// The place of the first row with this first part, and that behind the last one.
pub fn first_part_bounds<A: Key, B: Key, R: Row<Key = (A, B)>>(
    rows: &[R],
    first: A,
) -> (usize, usize)
    requires { ascending R.Row.keyed (lexical A.Key.rank B.Key.rank) rows.now ≡ true }
    ensures value { result ≡ (count_lower R.Row.keyed A.Key.rank rows.now first, count_lower R.Row.keyed A.Key.rank rows.now first + length (of_first R.Row.keyed A.Key.rank rows.now first)) }
    ensures within { (result.0 ≤ result.1) × (result.1 ≤ length rows.now) }
    ensures part { take (result.1 - result.0) (drop result.0 rows.now) ≡ of_first R.Row.keyed A.Key.rank rows.now first }
    ensures rest { take result.0 rows.now ++ drop result.1 rows.now ≡ filter (λ row. not (is_eq (A.Key.rank (R.Row.keyed row).0 first))) rows.now }
{
    let start = rows.partition_point(|row| row.key().0.compare(first).is_lt());
    let end = rows.partition_point(|row| row.key().0.compare(first).is_le());
    (start, end)
}

// The rows with this first part.
pub fn of_first<A: Key, B: Key, R: Row<Key = (A, B)>, const LIMIT: usize>(
    table: &Table<R, LIMIT>,
    first: A,
) -> &[R]
    requires { ascending R.Row.keyed (lexical A.Key.rank B.Key.rank) (held table.now) ≡ true }
    ensures { result.now ≡ of_first R.Row.keyed A.Key.rank (held table.now) first }
{
    let rows = table.rows();
    let (start, end) = first_part_bounds(rows, first);
    &rows[start..end]
}

// Lets the rows go that have this first part.
pub fn remove_of_first<A: Key, B: Key, R: Row<Key = (A, B)>, const LIMIT: usize>(
    table: &mut Table<R, LIMIT>,
    first: A,
)
    requires { ascending R.Row.keyed (lexical A.Key.rank B.Key.rank) (held table.old) ≡ true }
    ensures { held table.new ≡ filter (λ row. not (is_eq (A.Key.rank (R.Row.keyed row).0 first))) (held table.old) }
{
    let (start, end) = first_part_bounds(table.rows(), first);
    table.remove_part(start, end);
}
