// The rows that are nearer to what is held than some row, level by level: only these can be on its chain.
ghost use Rattle.std.specs.Prelude.{◌≡◌, cond, ℕ, ◌<◌, ltb};
ghost use Rattle.model.specs.Rounds.{level};
ghost use Rattle.reason.specs.Links.{Below, Ranked};

use state::Design;
use std::array::from_fn;

// The level, if it is below m, else 0. Constant time.
fn level_below(l: u16, m: u16) -> u16
    ensures { result ≡ cond (ltb l m) l 0 }
{
    if l < m { l } else { 0 }
}

// The levels below m, and 0 in place of the others. One pass over the row numbers.
pub(crate) fn levels_below(levels: &[u16; 512], m: u16) -> [u16; 512]
    ensures { Below levels.now m result }
{
    from_fn(|s| level_below(levels[s], m))
}

// For each level from 1 on the first of its rows, and for each row of such a level the next one of it; 512 where there is none, whatever stood there. One step
// for each row number.
pub(crate) fn list_levels(levels: &[u16; 512], heads: &mut [u16; 514], next: &mut [u16; 512])
    requires { (s : ℕ) → s < 512 → level levels.now s < 514 }
    ensures { Ranked levels.now 514 heads.new next.new }
{
    *heads = [512u16; 514];
    *next = [512u16; 512];
    for s in (0..Design::ROWS).rev() {
        let l = usize::from(levels[s]);
        if 0 < l {
            next[s] = heads[l];
            heads[l] = s as u16;
        }
    }
}
