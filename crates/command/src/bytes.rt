// Numbers in a script: bytes, u16 numbers of two and u32 numbers of four bytes, the lowest first.
ghost use Rattle.std.specs.Prelude.{◌≡◌, ◌+◌, ◌≤◌, length};
ghost use Rattle.command.specs.Bytes.{u16_at, u32_at};

// The u16 whose bytes begin at place i. Constant time, as is the next.
pub(crate) fn u16_at(script: &[u8], i: usize) -> u16
    requires { i + 2 ≤ length script.now }
    ensures { result ≡ u16_at script.now i }
{
    u16::from_le_bytes([script[i], script[i + 1]])
}

// The u32 whose bytes begin at place i.
pub(crate) fn u32_at(script: &[u8], i: usize) -> u32
    requires { i + 4 ≤ length script.now }
    ensures { result ≡ u32_at script.now i }
{
    u32::from_le_bytes([script[i], script[i + 1], script[i + 2], script[i + 3]])
}
