// Finding a value in the directory.
ghost use Rattle.std.specs.Prelude.{◌≡◌, ◌&&◌, ◌≤◌, ◌<◌, eqb, ltb, get_or};
ghost use Rattle.model.specs.Database.{Database, has};
ghost use Rattle.state.specs.Meaning.{cell_of, column_of};
ghost use Rattle.finite.specs.Finite.{first_from};
ghost use Rattle.catalog.specs.Catalog.{key_of, Falls};
ghost use Rattle.catalog.specs.Listing.{Searched};
ghost use Rattle.catalog.specs.Index.{IsDirectory};

use crate::halving::turning_point;
use crate::index::Index;
use crate::reading::{head_at, number_of, start_at};
use state::{Cell, Column, Design};

// The key of a value, which no other value has: keys are ordered as values are, by number, then issue. Constant time.
pub fn key_of(v: Cell) -> u64
    ensures { (result ≡ key_of (cell_of v)) × (v.issue < 256) }
{
    let number = u64::from(v.number);
    let issue = u64::from(v.issue);
    256 * number + issue
}

// Where x stands or belongs among the falling keys from place `from` to place `to`. A step for each halving: at most 13.
pub fn seat(keys: &[u64; 4096], from: usize, to: usize, x: u64) -> usize
    requires { to ≤ 4096 }
    ensures { from ≤ to → Falls from to keys.now → Searched from to x result result keys.now }
{
    turning_point(from, to, |k| x < keys[k])
}

// Whether x stands at place a, of the places before `to`. Constant time.
pub fn stands(keys: &[u64; 4096], to: usize, a: usize, x: u64) -> bool
    requires { to ≤ 4096 }
    ensures { result ≡ ltb a to && eqb (get_or keys.now a 0) x }
{
    a < to && keys[a] == x
}

impl Index<'_, '_> {
    // The first row that has the value v in column k, in any database whose directory this is; 512 if none has, as for a blank. A step for each halving
    // of the column's values: at most 10.
    pub fn find(&self, k: Column, v: Cell) -> usize
        requires { (k.table < 8) × (k.place < 8) }
        ensures { (D : Database) → IsDirectory D self.now
            → result ≡ first_from 512 (has D (column_of k) (cell_of v)) 0 }
    {
        let i = number_of(k);
        let to = start_at(self.catalog, i + 1);
        if Design::CELLS < to {
            return Design::ROWS;
        }
        let x = key_of(v);
        let a = seat(self.keys, start_at(self.catalog, i), to, x);
        if stands(self.keys, to, a, x) {
            return head_at(self.catalog, a);
        }
        Design::ROWS
    }
}
