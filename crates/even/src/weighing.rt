// What constraints weigh.
ghost use Rattle.std.specs.Prelude.{◌≡◌, ◌<◌};
ghost use Rattle.even.specs.Walks.{pair_weight, weight_of};

// More than all sixteen constraints weigh.
pub(crate) const FAR: u32 = 1048576;

// What constraint e weighs. Constant time, as is the next.
pub(crate) fn weight_of(e: usize) -> u32
    requires { e < 16 }
    ensures { result ≡ weight_of e }
{
    65536 - (32768u32 >> e)
}

// What two constraints weigh, which may be one.
pub(crate) fn pair_weight(i: usize, j: usize) -> u32
    requires { (i < 16) × (j < 16) }
    ensures { result ≡ pair_weight i j }
{
    if i == j {
        return weight_of(i);
    }
    weight_of(i) + weight_of(j)
}
