// What the table promises of its edits and ranges, at every kind of row.
ghost use Rattle.table.specs.Promises.{Promises, PairPromises, NumberPromises};

use table::{Key, Row};

pub fn promises_stand<R: Row>()
    ensures { Promises R.Row.keyed R.Key.Key.rank }
{}

// The same where the key is a pair.
pub fn pair_promises_stand<T, A: Key, B: Key>()
    ensures pairs { (key : T → A × B) → PairPromises key A.Key.rank B.Key.rank }
    ensures numbers { NumberPromises T }
{}
