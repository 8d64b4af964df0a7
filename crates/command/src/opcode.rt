// The byte that begins a command, and how many bytes the command takes.
ghost use Rattle.std.specs.Prelude.{◌≡◌, ◌≤◌};
ghost use Rattle.command.specs.Commands.{width_of};
ghost use Rattle.command.specs.Opcodes.{Decodes, byte_of};

// The commands by their bytes. Those below 0x10 are the design's, Put and Remove change the rows, and the others are the operations'.
#[derive(Clone, Copy)]
pub(crate) enum Opcode {
    Table,
    Constraint,
    Filling,
    Row,
    End,
    // a ROW with eight issues behind its cells
    IssuedRow,
    Refer,
    Drop,
    Probe,
    Query,
    Evenness,
    Total,
    Name,
    Reason,
    Opener,
    ReferRange,
    DropRange,
    SmallestKnot,
    Put,
    Remove,
    // the same operations, with the issue of their value at the end
    IssuedRefer,
    IssuedDrop,
    IssuedProbe,
    IssuedQuery,
    IssuedTotal,
}

// No command has the byte.
#[derive(Clone, Copy)]
pub(crate) struct UnknownByte;

#[tactic(auto, unfolding(crate::specs::Opcodes::byte_of, crate::specs::Commands::width_of, crate::specs::Commands::design_width, crate::specs::Commands::operation_width,))]
impl TryFrom<u8> for Opcode {
    type Error = UnknownByte;

    ghost try_from_gives = { Decodes };

    fn try_from(byte: u8) -> Result<Opcode, UnknownByte> {
        Ok(match byte {
            0x01 => Opcode::Table,
            0x02 => Opcode::Constraint,
            0x03 => Opcode::Filling,
            0x04 => Opcode::Row,
            0x05 => Opcode::End,
            0x07 => Opcode::IssuedRow,
            0x10 => Opcode::Refer,
            0x11 => Opcode::Drop,
            0x12 => Opcode::Probe,
            0x13 => Opcode::Query,
            0x14 => Opcode::Evenness,
            0x15 => Opcode::Total,
            0x17 => Opcode::Name,
            0x18 => Opcode::Reason,
            0x19 => Opcode::Opener,
            0x1A => Opcode::ReferRange,
            0x1B => Opcode::DropRange,
            0x1C => Opcode::SmallestKnot,
            0x1D => Opcode::Put,
            0x1E => Opcode::Remove,
            0x20 => Opcode::IssuedRefer,
            0x21 => Opcode::IssuedDrop,
            0x22 => Opcode::IssuedProbe,
            0x23 => Opcode::IssuedQuery,
            0x25 => Opcode::IssuedTotal,
            _ => return Err(UnknownByte),
        })
    }
}

impl Opcode {
    // How many bytes the command takes, its own byte among them.
    #[tactic(auto, unfolding(crate::specs::Opcodes::byte_of, crate::specs::Commands::width_of, crate::specs::Commands::design_width, crate::specs::Commands::operation_width,))]
    pub(crate) fn width(self) -> usize
        ensures { (result ≡ width_of (byte_of self)) × (1 ≤ result) }
    {
        match self {
            Opcode::Evenness | Opcode::SmallestKnot | Opcode::End => 1,
            Opcode::Name => 2,
            Opcode::Table | Opcode::Reason | Opcode::Remove => 3,
            Opcode::Constraint => 5,
            Opcode::Refer | Opcode::Drop => 6,
            Opcode::Probe | Opcode::IssuedRefer | Opcode::IssuedDrop => 7,
            Opcode::Opener | Opcode::IssuedProbe => 8,
            Opcode::ReferRange | Opcode::DropRange => 10,
            Opcode::Filling => 11,
            Opcode::Query => 16,
            Opcode::IssuedQuery => 17,
            Opcode::Total => 18,
            Opcode::IssuedTotal => 19,
            Opcode::Row => 34,
            Opcode::IssuedRow => 42,
            Opcode::Put => 44,
        }
    }
}
