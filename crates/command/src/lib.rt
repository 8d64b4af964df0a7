// Scripts as bytes: the command at a place, with its operands.
#![tactic(auto)]

mod bytes;
mod command;
mod opcode;
mod reader;

pub use command::{Command, row_at, row_cell, row_issue, width_of};
pub use reader::{ScriptReader, command_at};
