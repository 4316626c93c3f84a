// The rows of a table whose keys lie in a range.
ghost use Rattle.std.specs.Prelude.{◌≡◌};
ghost use Rattle.table.specs.Held.{held};
ghost use Rattle.table.specs.Ranges.{between, without_between};

use crate::places::bounds;
use table::{Key, Row, Table};

// The rows with keys from `from` up to `until`, without that one.
pub fn between<R: Row, const LIMIT: usize>(
    table: &Table<R, LIMIT>,
    from: R::Key,
    until: R::Key,
) -> &[R]
    ensures { result.now ≡ between R.Row.keyed R.Key.Key.rank (held table.now) from until }
{
    let rows = table.rows();
    let (start, end) = bounds(rows, from, until);
    &rows[start..end]
}

// Lets the rows go that have keys from `from` up to `until`, without that one.
pub fn remove_between<R: Row, const LIMIT: usize>(
    table: &mut Table<R, LIMIT>,
    from: R::Key,
    until: R::Key,
)
    ensures { held table.new ≡ without_between R.Row.keyed R.Key.Key.rank (held table.old) from until }
{
    let (start, end) = bounds(table.rows(), from, until);
    table.remove_part(start, end);
}
