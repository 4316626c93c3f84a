// Rows that have room.
ghost use Rattle.std.specs.Prelude.{◌≡◌, ◌≤◌, length};
ghost use Rattle.table.specs.Held.{held};
ghost use Rattle.table.specs.Rows.{insert_row};

use table::{Key, Row, Table};

// Puts the row into a table that has room for it.
pub fn put<R: Row, const LIMIT: usize>(table: &mut Table<R, LIMIT>, row: R)
    requires { length (insert_row R.Row.keyed R.Key.Key.rank (held table.old) row) ≤ LIMIT }
    ensures { held table.new ≡ insert_row R.Row.keyed R.Key.Key.rank (held table.old) row }
{
    let _ = table.insert(row);
}
