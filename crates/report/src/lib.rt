// The desk's report as text. Each function writes into a lent buffer from an index on and gives the index behind what it wrote; the rest of the
// buffer is untouched. What is written is what specs/Report.antt says, and takes time in proportion to its bytes, whatever the number of rows and
// constraints. A `requires` asks for room alone (and, for lists, for the words); proofs/Lengths.antt says how far each line reaches.
#![tactic(auto)]

mod lines;

pub use lines::{put_command_line, put_design_line, put_list_lines, put_refusal_line};
