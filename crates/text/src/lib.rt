// Bytes and numbers, written into a lent buffer from an index on; each function gives the index behind what it wrote, and the rest of the buffer is
// untouched. The report and the reasons for rows are written with these. Each takes time in proportion to the bytes that it writes.
#![tactic(auto)]

ghost use Rattle.std.specs.Prelude.{◌∷◌, [], ◌+◌, ◌≤◌, ◌<◌, length, take};
ghost use Rattle.finite.specs.Writing.{Wrote};
ghost use Rattle.finite.specs.Decimal.{decimal, spaced};

// Writes the first n bytes of a text.
pub fn put_bytes(out: &mut [u8], at: usize, text: &[u8], n: usize) -> usize
    requires { (n ≤ length text.now) × (at + n ≤ length out.old) }
    ensures { Wrote out.old out.new at result (take n text.now) }
{
    out[at..at + n].copy_from_slice(&text[..n]);
    at + n
}

// Writes one byte.
pub fn put_byte(out: &mut [u8], at: usize, b: u8) -> usize
    requires { at + 1 ≤ length out.old }
    ensures { Wrote out.old out.new at result (b ∷ []) }
{
    out[at] = b;
    at + 1
}

// Writes a number in decimal, its leading digits first: at most 20 bytes.
fn put_digits(out: &mut [u8], at: usize, n: u64) -> usize
    requires { at + 20 ≤ length out.old }
    ensures { Wrote out.old out.new at result (decimal n) }
{
    if n < 10 {
        return put_byte(out, at, b'0' + n as u8);
    }
    let z = put_digits(out, at, n / 10);
    put_byte(out, z, b'0' + (n % 10) as u8)
}

// Writes a number of two digits.
fn put_two(out: &mut [u8], at: usize, n: u64) -> usize
    requires { (10 ≤ n) × (n < 100) × (at + 2 ≤ length out.old) }
    ensures { Wrote out.old out.new at result (decimal n) }
{
    let z = put_byte(out, at, b'0' + (n / 10) as u8);
    put_byte(out, z, b'0' + (n % 10) as u8)
}

// Writes a number in decimal: at most 20 bytes. Those of rows and constraints have at most three digits, and are written without a call for each.
pub fn put_decimal(out: &mut [u8], at: usize, n: u64) -> usize
    requires { at + 20 ≤ length out.old }
    ensures { Wrote out.old out.new at result (decimal n) }
{
    if n < 10 {
        return put_byte(out, at, b'0' + n as u8);
    }
    if n < 100 {
        return put_two(out, at, n);
    }
    if n < 1000 {
        let z = put_two(out, at, n / 10);
        return put_byte(out, z, b'0' + (n % 10) as u8);
    }
    put_digits(out, at, n)
}

// Writes a space and a number: at most 21 bytes.
pub fn put_spaced(out: &mut [u8], at: usize, n: u64) -> usize
    requires { at + 21 ≤ length out.old }
    ensures { Wrote out.old out.new at result (spaced n) }
{
    let z = put_byte(out, at, b' ');
    put_decimal(out, z, n)
}
