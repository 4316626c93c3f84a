// The owner of the rows: a vector that is made once, with room for each row that it may hold.
ghost use Rattle.std.specs.Prelude.{◌≡◌, ◌-◌, ◌≤◌, true, vec_capacity, [], ◌++◌, length, take, drop, IfOk, None, MatchResult};
ghost use Rattle.table.specs.Rows.{ascending};

use crate::slices::{put_at, remove_in, search};
use crate::{Full, Key, Row};
use std::alloc::{AllocError, Global};

// Rows that ascend by key, `limit` at most: that many are told when the table is made. A sorted vector and no map: fixed memory, and one
// search over lent slices, are rules of the project.
#[derive(Drop)]
pub struct LimitedTable<R: Row> {
    rows: Vec<R>,
    limit: usize,
    ghost up: { ascending R.Row.keyed R.Key.Key.rank rows.items ≡ true },
    ghost few: { length rows.items ≤ limit },
    ghost room: { limit ≤ vec_capacity rows },
}

// Moves the rows from `start` to `end` behind the others.
fn turn_out<T: Copy>(rows: &mut [T], start: usize, end: usize)
    requires { (start ≤ end) × (end ≤ length rows.old) }
    ensures { take (length rows.old - (end - start)) rows.new ≡ take start rows.old ++ drop end rows.old }
{
    rows[start..].rotate_left(end - start);
}

impl<R: Row> LimitedTable<R> {
    ghost use Rattle.table.specs.Rows.{find, insert_row, remove_row, entered, first_of};
    ghost use Rattle.table.specs.Held.{held_limited, limit_of};

    // A table without rows, with all its room.
    pub fn new(heap: Global, limit: usize) -> Result<LimitedTable<R>, AllocError>
        ensures { IfOk result (λ t. (held_limited t ≡ []) × (limit_of t ≡ limit)) }
    {
        let rows = Vec::with_capacity(heap, limit)?;
        Ok(LimitedTable { rows, limit })
    }

    // How many rows it may hold.
    pub fn limit(&self) -> usize
        ensures { result ≡ limit_of self.now }
    {
        self.limit
    }

    pub fn len(&self) -> usize
        ensures { (result ≡ length (held_limited self.now)) × (result ≤ limit_of self.now) }
    {
        self.rows.len()
    }

    pub fn rows(&self) -> &[R]
        ensures { result.now ≡ held_limited self.now }
    {
        self.rows.as_slice()
    }

    // The least row.
    pub fn first(&self) -> Option<R>
        ensures { result ≡ first_of (held_limited self.now) }
    {
        self.rows().first().copied()
    }

    // The row with this key.
    pub fn get(&self, key: R::Key) -> Option<R>
        ensures { result ≡ find R.Row.keyed R.Key.Key.rank (held_limited self.now) key }
    {
        let rows = self.rows();
        let i = search(rows, key).ok()?;
        Some(rows[i])
    }

    // Lets all rows go.
    pub fn clear(&mut self)
        ensures limit { limit_of self.new ≡ limit_of self.old }
        ensures rows { held_limited self.new ≡ [] }
    {
        self.rows.clear();
    }

    // Puts the row in its place, over the one that has its key.
    pub fn insert(&mut self, row: R) -> Result<(), Full>
        ensures limit { limit_of self.new ≡ limit_of self.old }
        ensures after { (result, held_limited self.new) ≡ entered R.Row.keyed R.Key.Key.rank (limit_of self.old) (held_limited self.old) row }
        ensures cases { MatchResult result (λ _. held_limited self.new ≡ insert_row R.Row.keyed R.Key.Key.rank (held_limited self.old) row) (λ _. (held_limited self.new ≡ held_limited self.old) × (length (held_limited self.old) ≡ limit_of self.old) × (find R.Row.keyed R.Key.Key.rank (held_limited self.old) (R.Row.keyed row) ≡ None)) }
    {
        let len = self.rows.len();
        let place = search(self.rows(), row.key());
        // Room is lent only where no row has its key: to write over one is no more than a search.
        if place.is_err() && len < self.limit {
            self.rows.push_reserved(row);
        }
        put_at(self.rows.as_mut_slice(), len, place, row)?;
        Ok(())
    }

    // Takes out the row with this key.
    pub fn remove(&mut self, key: R::Key) -> Option<R>
        ensures limit { limit_of self.new ≡ limit_of self.old }
        ensures value { result ≡ find R.Row.keyed R.Key.Key.rank (held_limited self.old) key }
        ensures rows { held_limited self.new ≡ remove_row R.Row.keyed R.Key.Key.rank (held_limited self.old) key }
    {
        let len = self.rows.len();
        let row = remove_in(self.rows.as_mut_slice(), len, key)?;
        self.rows.truncate(len - 1);
        Some(row)
    }

    // Holds these rows, which ascend.
    pub fn copy_rows(&mut self, rows: &[R])
        requires order { ascending R.Row.keyed R.Key.Key.rank rows.now ≡ true }
        requires room { length rows.now ≤ limit_of self.old }
        ensures limit { limit_of self.new ≡ limit_of self.old }
        ensures rows { held_limited self.new ≡ rows.now }
    {
        self.clear();
        let _ = self.rows.extend_from_slice(rows);
    }

    // Lets the rows go from place `start` up to `end`.
    pub fn remove_part(&mut self, start: usize, end: usize)
        requires { (start ≤ end) × (end ≤ length (held_limited self.old)) }
        ensures limit { limit_of self.new ≡ limit_of self.old }
        ensures rows { held_limited self.new ≡ take start (held_limited self.old) ++ drop end (held_limited self.old) }
    {
        // No `drain`: it turns the rows that go once more, also where they are the last ones.
        let len = self.rows.len();
        turn_out(self.rows.as_mut_slice(), start, end);
        self.rows.truncate(len - (end - start));
    }
}

#[cfg(test)]
mod tests {
    use super::*;
    use std::test::Fail;

    #[test]
    fn a_table_is_made_for_a_limit_told_then(rt: HostRuntime) -> Result<(), Fail> {
        let mut table = LimitedTable::new(rt.alloc(), 1)?;
        assert_eq!(rt; table.limit(), 1);
        assert!(rt; table.insert(7_u64).is_ok());
        assert!(rt; table.insert(8).is_err());
        assert_eq!(rt; table.rows(), [7].as_slice());
        Ok(())
    }
}
