// What a load has reached.
ghost use Rattle.std.specs.Prelude.{◌≡◌, length};
ghost use Rattle.load.specs.Queue.{Listed, added};

// The rows' levels, and the queue of the rows that rounds have added: `end` places of it are used.
#[derive(Drop)]
pub(crate) struct Load {
    pub levels: [u16; 512],
    pub queue: [u16; 512],
    pub end: usize,
    ghost long: { length levels ≡ 512 },
    ghost listed: { Listed (added levels) queue end },
}
