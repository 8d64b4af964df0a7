// Storing a part of the catalog.
ghost use Rattle.std.specs.Prelude.{◌≡◌, ◌+◌, ◌≤◌, length};
ghost use Rattle.catalog.specs.Catalog.{Stored};

// Stores the elements of xs from place `at` on. One step for each.
pub fn store(catalog: &mut [u16; 16449], at: usize, xs: &[u16])
    requires { (at + length xs.now ≤ 16449) × (length catalog.old ≡ 16449) }
    ensures { Stored at xs.now catalog.old catalog.new }
{
    catalog[at..at + xs.len()].copy_from_slice(xs);
}
