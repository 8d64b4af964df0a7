// The catalog with the keys of its directory, as they are lent to be read.
#[derive(Clone, Copy)]
pub struct Index<'c, 'k> {
    pub catalog: &'c [u16; 16449],
    pub keys: &'k [u64; 4096],
}
