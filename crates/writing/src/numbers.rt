// Numbers as they are written: the four bytes of a u32, the lowest first.
ghost use Rattle.std.specs.Prelude.{◌≡◌, ◌+◌, ◌≤◌, length};
ghost use Rattle.std.proofs.lemmas.List.Edits.{sets};
ghost use Rattle.command.specs.Bytes.{u32_bytes};

// Stores the four bytes of v from place `at` on. Constant time.
pub(crate) fn put_u32(out: &mut [u8], at: usize, v: u32)
    requires { at + 4 ≤ length out.old }
    ensures { out.new ≡ sets out.old at (u32_bytes v) }
{
    out[at..at + 4].copy_from_slice(&v.to_le_bytes());
}
