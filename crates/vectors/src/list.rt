// Reading the list of vectors: fields, numbers and bytes. Every function is total: what isn't there is empty, or 0.
use std::alloc::{AllocError, Global};

// The first n bytes, or all of them where there are fewer. Constant time.
pub(crate) fn first(n: usize, text: &[u8]) -> &[u8] {
    text.get(..n).unwrap_or(text)
}

// What stands before the next bar, and what stands behind it. One step for each byte.
fn cut(text: &[u8]) -> (&[u8], &[u8]) {
    let mut parts = text.splitn(2, |b| *b == b'|');
    let front = parts.next().unwrap_or(&[]);
    (front, parts.next().unwrap_or(&[]))
}

// A line's three fields, and the last two with the bar between them. A bar ends the first and the second.
#[derive(Clone, Copy)]
pub struct Fields<'a> {
    pub name: &'a [u8],
    pub expected: &'a [u8],
    pub rest: &'a [u8],
    pub behind_name: &'a [u8],
}

// The fields of a line from behind its kind on, a byte passed over.
pub(crate) fn fields_of(text: &[u8]) -> Fields<'_> {
    let (name, behind_name) = cut(text.get(1..).unwrap_or(&[]));
    let (expected, rest) = cut(behind_name);
    Fields {
        name,
        expected,
        rest,
        behind_name,
    }
}

// A hexadecimal digit's value; capitals are none. Constant time.
fn digit(b: u8) -> Option<u8> {
    match b {
        b'0'..=b'9' => Some(b - b'0'),
        b'a'..=b'f' => Some(b - b'a' + 10),
        _ => None,
    }
}

// The bytes that two digits each stand for; what is no digit is passed over, and so is a last digit alone. One step for each byte of the text.
pub(crate) fn from_hex(alloc: Global, text: &[u8]) -> Result<Vec<u8>, AllocError> {
    let mut bytes = Vec::new(alloc);
    let mut high = None;
    for low in text.iter().filter_map(|b| digit(*b)) {
        if let Some(h) = high {
            bytes.push(h << 4 | low)?;
            high = None;
        } else {
            high = Some(low);
        }
    }
    Ok(bytes)
}

// The next number in decimal, of its last seven digits, what stands before it passed over; 0 where there is none. And what stands behind it. One step for each byte.
pub(crate) fn number(text: &[u8]) -> (usize, &[u8]) {
    let start = text.iter().position(|b| b.is_ascii_digit());
    let digits = text.get(start.unwrap_or(text.len())..).unwrap_or(&[]);
    let end = digits.iter().position(|b| !b.is_ascii_digit());
    let (digits, rest) = digits.split_at(end.unwrap_or(digits.len()));
    let value = digits.iter().fold(0, |n, d| {
        n % 1_000_000 * 10 + usize::from(d.wrapping_sub(b'0'))
    });
    (value, rest)
}

// The next N numbers. One step for each byte.
pub(crate) fn numbers<const N: usize>(text: &[u8]) -> [usize; N] {
    let mut values = [0; N];
    let mut rest = text;
    for value in &mut values {
        (*value, rest) = number(rest);
    }
    values
}
