// The places of a range among rows that ascend.
ghost use Rattle.std.specs.Prelude.{◌≡◌, ◌+◌, ◌-◌, ◌≤◌, true, ◌++◌, length, take, drop};
ghost use Rattle.table.specs.Rows.{ascending};
ghost use Rattle.table.specs.Ranges.{between, without_between, count_below};

use table::{Key, Row, search};

// How many rows have keys below this one.
pub fn count_below<R: Row>(rows: &[R], key: R::Key) -> usize
    requires { ascending R.Row.keyed R.Key.Key.rank rows.now ≡ true }
    ensures value { result ≡ count_below R.Row.keyed R.Key.Key.rank rows.now key }
    ensures within { result ≤ length rows.now }
{
    search(rows, key).unwrap_or_else(|i| i)
}

// The place of the first row whose key is not below `from`, and that behind the last one below `until`.
// The rows of the range stand between them, and the others before and behind.
pub fn bounds<R: Row>(rows: &[R], from: R::Key, until: R::Key) -> (usize, usize)
    requires { ascending R.Row.keyed R.Key.Key.rank rows.now ≡ true }
    ensures value { result ≡ (count_below R.Row.keyed R.Key.Key.rank rows.now from, count_below R.Row.keyed R.Key.Key.rank rows.now from + length (between R.Row.keyed R.Key.Key.rank rows.now from until)) }
    ensures within { (result.0 ≤ result.1) × (result.1 ≤ length rows.now) }
    ensures part { take (result.1 - result.0) (drop result.0 rows.now) ≡ between R.Row.keyed R.Key.Key.rank rows.now from until }
    ensures rest { take result.0 rows.now ++ drop result.1 rows.now ≡ without_between R.Row.keyed R.Key.Key.rank rows.now from until }
    ensures rest_ascends { ascending R.Row.keyed R.Key.Key.rank (without_between R.Row.keyed R.Key.Key.rank rows.now from until) ≡ true }
{
    let start = count_below(rows, from);
    let count = count_below(&rows[start..], until);
    (start, start + count)
}
