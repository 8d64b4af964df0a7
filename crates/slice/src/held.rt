// The first held value that lacks.
ghost use Rattle.std.specs.Prelude.{◌<◌, ◌≡◌};
ghost use Rattle.model.specs.Database.{Database};
ghost use Rattle.model.specs.Missing as Model;
ghost use Rattle.state.specs.Design.{InRange};
ghost use Rattle.state.specs.Held.{Bounded, held_at};
ghost use Rattle.state.specs.HeldWords.{words_held};
ghost use Rattle.state.specs.Meaning.{owned_of, scheme_of, values_of};
ghost use Rattle.slice.specs.Fetches.{fetches_in, as_lack, Ordered};
ghost use Rattle.catalog.specs.Index.{IsIndexed};

use crate::fetch::Fetch;
use crate::lack::lack_of;
use catalog::Index;
use state::{Design, filling_at, value_at, value_count};

// Of held value i.
fn pair_lack(
    d: Design,
    index: &Index,
    held: &[u32; 358],
    words: &[u32],
    n: usize,
    i: usize,
) -> Option<Fetch>
    requires { InRange d × (i < 64) × Ordered words.now n }
    ensures { (D : Database) → IsIndexed D index.now
        → as_lack result ≡ Model.pair_lack (scheme_of d) D (fetches_in words.now n) (owned_of (held_at (words_held held.now) i)) }
{
    let o = value_at(held, i);
    let f = filling_at(d, o.pair.filling as usize);
    lack_of(d, index, words, n, f.column, o.pair.value)
}

// Of all, in order of reference.
pub(crate) fn pairs_lack(
    d: Design,
    index: &Index,
    held: &[u32; 358],
    words: &[u32],
    n: usize,
) -> Option<Fetch>
    requires { InRange d × Bounded (words_held held.now) × Ordered words.now n }
    ensures { (D : Database) → IsIndexed D index.now
        → as_lack result ≡ Model.lack_in (Model.pair_lack (scheme_of d) D (fetches_in words.now n)) (values_of (words_held held.now)) }
{
    (0..value_count(held)).find_map(|i| pair_lack(d, index, held, words, n, i))
}
