// A script reader: the lent bytes and the place reached so far. `new`, `moved` and `next` are thin, as is `command_at`, which has plain parameters and which
// everything else calls. The work is `read_at`'s.
ghost use Rattle.std.specs.Prelude.{◌≡◌};
ghost use Rattle.command.specs.Commands.{command_at};

use crate::command::{Command, read_at};

#[derive(Clone, Copy)]
pub struct ScriptReader<'a> {
    pub bytes: &'a [u8],
    pub at: usize,
}

impl<'a> ScriptReader<'a> {
    // The reader at the start. Constant time, as everything in this file.
    pub(crate) fn new(bytes: &'a [u8]) -> ScriptReader<'a>
        ensures { (result.bytes ≡ bytes.entry) × (result.at ≡ 0) }
    {
        ScriptReader { bytes, at: 0 }
    }

    // The reader at another place.
    pub(crate) fn moved(self, at: usize) -> ScriptReader<'a>
        ensures { (result.bytes ≡ self.entry.bytes) × (result.at ≡ at) }
    {
        ScriptReader { at, ..self }
    }

    // The command at the place reached.
    pub(crate) fn next(self) -> Command
        ensures { result ≡ command_at self.entry.bytes.now self.entry.at }
    {
        read_at(self.bytes, self.at)
    }
}

// The command at a place of a script.
pub fn command_at(bytes: &[u8], at: usize) -> Command
    ensures { result ≡ command_at bytes.now at }
{
    ScriptReader::new(bytes).moved(at).next()
}
