// What writing a design out gives back.

// How many bytes of a design were written; or the cause of a refusal.
#[derive(Clone, Copy)]
pub enum Written {
    Bytes(usize),
    Refused(u8),
}
