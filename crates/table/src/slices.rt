// Search and edits over lent slices, which an edit wants to have room behind their rows: a rule of the project. So the number of the rows
// stands beside the slice.
ghost use Rattle.std.specs.Prelude.{◌≡◌, ◌+◌, ◌-◌, ◌<◌, ◌≤◌, true, [], ◌∷◌, ◌++◌, length, take, drop, is_some, is_ok, Some, None, MatchResult, slice_index_or, slice_set};
ghost use Rattle.std.specs.List.{insert, remove};
ghost use Rattle.std.specs.Option.{option_to_list};
ghost use Rattle.table.specs.Ranges.{count_below};
ghost use Rattle.table.specs.Rows.{ascending, place, find, insert_row, remove_row, entered_in, laid};

use crate::{Full, Key, Row};

// The place of the row with this key, or the place where it would stand.
// The clauses after `within` say what that place means for a look-up and for an edit.
pub fn search<R: Row>(rows: &[R], key: R::Key) -> Result<usize, usize>
    requires { ascending R.Row.keyed R.Key.Key.rank rows.now ≡ true }
    ensures place { result ≡ place R.Row.keyed R.Key.Key.rank rows.now key }
    ensures within { MatchResult result (λ i. i < length rows.now) (λ i. i ≤ length rows.now) }
    ensures count { MatchResult result (λ i. i ≡ count_below R.Row.keyed R.Key.Key.rank rows.now key) (λ i. i ≡ count_below R.Row.keyed R.Key.Key.rank rows.now key) }
    ensures there { is_some (find R.Row.keyed R.Key.Key.rank rows.now key) ≡ is_ok result }
    ensures found { MatchResult result (λ i. ((d : R) → find R.Row.keyed R.Key.Key.rank rows.now key ≡ Some (slice_index_or rows.now i d))) (λ _. find R.Row.keyed R.Key.Key.rank rows.now key ≡ None) }
    ensures cut { MatchResult result (λ i. remove_row R.Row.keyed R.Key.Key.rank rows.now key ≡ remove rows.now i) (λ _. remove_row R.Row.keyed R.Key.Key.rank rows.now key ≡ rows.now) }
    ensures put { MatchResult result (λ i. ((row : R) → R.Row.keyed row ≡ key → insert_row R.Row.keyed R.Key.Key.rank rows.now row ≡ slice_set rows.now i row)) (λ i. ((row : R) → R.Row.keyed row ≡ key → insert_row R.Row.keyed R.Key.Key.rank rows.now row ≡ insert rows.now i row)) }
    ensures cut_ascends { ascending R.Row.keyed R.Key.Key.rank (remove_row R.Row.keyed R.Key.Key.rank rows.now key) ≡ true }
    ensures put_ascends { (row : R) → R.Row.keyed row ≡ key → ascending R.Row.keyed R.Key.Key.rank (insert_row R.Row.keyed R.Key.Key.rank rows.now row) ≡ true }
{
    // By a loop of its own: no library search stops at the key.
    let mut low = 0;
    let mut high = rows.len();
    while low < high {
        let mid = low + (high - low) / 2;
        let order = rows[mid].key().compare(key);
        if order.is_eq() {
            return Ok(mid);
        }
        if order.is_lt() {
            low = mid + 1;
        } else {
            high = mid;
        }
    }
    Err(low)
}

// Writes over the row at i.
fn write_at<T: Copy>(rows: &mut [T], len: usize, i: usize, row: T)
    requires { (i < len) × (len ≤ length rows.old) }
    ensures rows { rows.new ≡ laid (slice_set (take len rows.old) i row) rows.old }
    ensures front { take len rows.new ≡ slice_set (take len rows.old) i row }
    ensures long { length (slice_set (take len rows.old) i row) ≡ len }
{
    rows[i] = row;
}

// Moves all up by one place, over the last, and puts the row first.
fn shift_in<T: Copy>(part: &mut [T], row: T)
    requires { 0 < length part.old }
    ensures { part.new ≡ row ∷ take (length part.old - 1) part.old }
{
    part.rotate_right(1);
    part[0] = row;
}

// Moves the rows from i on up by one place, and puts the row at i.
fn open_at<T: Copy>(rows: &mut [T], len: usize, i: usize, row: T)
    requires { (i ≤ len) × (len < length rows.old) }
    ensures rows { rows.new ≡ laid (insert (take len rows.old) i row) rows.old }
    ensures front { take (len + 1) rows.new ≡ insert (take len rows.old) i row }
    ensures long { length (insert (take len rows.old) i row) ≡ len + 1 }
{
    shift_in(&mut rows[i..len + 1], row);
}

// Moves the rows behind i down by one place, and puts the row of i behind them.
fn close_at<T: Copy>(rows: &mut [T], len: usize, i: usize) -> T
    requires { (i < len) × (len ≤ length rows.old) }
    ensures value { result ≡ slice_index_or (take len rows.old) i result }
    ensures rows { rows.new ≡ remove (take len rows.old) i ++ ((result ∷ []) ++ drop len rows.old) }
    ensures front { take (len - 1) rows.new ≡ remove (take len rows.old) i }
{
    let row = rows[i];
    rows[i..len].rotate_left(1);
    row
}

// Puts the row at the place that a search of the first `len` found for its key, and answers how many there are.
pub(crate) fn put_at<R: Row>(
    rows: &mut [R],
    len: usize,
    place: Result<usize, usize>,
    row: R,
) -> Result<usize, Full>
    requires below { len ≤ length rows.old }
    requires within { MatchResult place (λ i. i < len) (λ i. i ≤ len) }
    requires there { is_some (find R.Row.keyed R.Key.Key.rank (take len rows.old) (R.Row.keyed row)) ≡ is_ok place }
    requires put { MatchResult place (λ i. insert_row R.Row.keyed R.Key.Key.rank (take len rows.old) row ≡ slice_set (take len rows.old) i row) (λ i. insert_row R.Row.keyed R.Key.Key.rank (take len rows.old) row ≡ insert (take len rows.old) i row) }
    ensures after { (result, rows.new) ≡ entered_in R.Row.keyed R.Key.Key.rank rows.old len row }
    ensures cases { MatchResult result (λ n. (n ≤ length rows.old) × (take n rows.new ≡ insert_row R.Row.keyed R.Key.Key.rank (take len rows.old) row)) (λ _. rows.new ≡ rows.old) }
{
    match place {
        Ok(i) => {
            write_at(rows, len, i, row);
            Ok(len)
        }
        Err(i) => {
            if len >= rows.len() {
                return Err(Full);
            }
            open_at(rows, len, i, row);
            Ok(len + 1)
        }
    }
}

// Puts the row in its place among the first `len`, over the one that has its key, and answers how many there are.
pub fn insert_in<R: Row>(rows: &mut [R], len: usize, row: R) -> Result<usize, Full>
    requires below { len ≤ length rows.old }
    requires order { ascending R.Row.keyed R.Key.Key.rank (take len rows.old) ≡ true }
    ensures order { ascending R.Row.keyed R.Key.Key.rank (insert_row R.Row.keyed R.Key.Key.rank (take len rows.old) row) ≡ true }
    ensures after { (result, rows.new) ≡ entered_in R.Row.keyed R.Key.Key.rank rows.old len row }
    ensures cases { MatchResult result (λ n. (n ≤ length rows.old) × (take n rows.new ≡ insert_row R.Row.keyed R.Key.Key.rank (take len rows.old) row)) (λ _. rows.new ≡ rows.old) }
{
    let place = search(&rows[..len], row.key());
    put_at(rows, len, place, row)
}

// Takes the row with this key out of the first `len`: it then stands behind those that are kept.
pub fn remove_in<R: Row>(rows: &mut [R], len: usize, key: R::Key) -> Option<R>
    requires below { len ≤ length rows.old }
    requires order { ascending R.Row.keyed R.Key.Key.rank (take len rows.old) ≡ true }
    ensures order { ascending R.Row.keyed R.Key.Key.rank (remove_row R.Row.keyed R.Key.Key.rank (take len rows.old) key) ≡ true }
    ensures value { result ≡ find R.Row.keyed R.Key.Key.rank (take len rows.old) key }
    ensures rows { rows.new ≡ remove_row R.Row.keyed R.Key.Key.rank (take len rows.old) key ++ (option_to_list result ++ drop len rows.old) }
    ensures front { take (len - length (option_to_list result)) rows.new ≡ remove_row R.Row.keyed R.Key.Key.rank (take len rows.old) key }
    ensures fewer { length (option_to_list result) ≤ len }
{
    let i = search(&rows[..len], key).ok()?;
    Some(close_at(rows, len, i))
}
