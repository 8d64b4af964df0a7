// What a caller lends, the operations of the library that take whatever is lent, and changes that spoil it in one place.
use format::{DesignReading, Verdict, read_design};
use operate::perform;
use script::{Step, step};
use state::{
    Answer, Cell, Column, Constraint, Design, Filling, HeldValue, Join, Operation, Query, Rows,
    Table,
};
use std::alloc::{AllocError, Global};
use writing::{Written, write};

// How long each buffer of a state is.
#[derive(Clone, Copy)]
pub struct Lengths {
    pub cells: usize,
    pub issues: usize,
    pub tables: usize,
    pub marks: usize,
    pub held: usize,
}

impl Lengths {
    // Just long enough.
    pub const WHOLE: Lengths = Lengths {
        cells: 4096,
        issues: 4096,
        tables: 512,
        marks: 512,
        held: 358,
    };

    pub const NONE: Lengths = Lengths {
        cells: 0,
        issues: 0,
        tables: 0,
        marks: 0,
        held: 0,
    };
}

// The buffers of a state.
#[derive(Clone, PartialEq, Drop)]
pub struct Buffers {
    pub cells: Vec<u32>,
    pub issues: Vec<u8>,
    pub tables: Vec<u8>,
    pub marks: Vec<u8>,
    pub held: Vec<u32>,
}

impl Buffers {
    // Of these lengths, with one number everywhere. One step for each place.
    pub(crate) fn filled(
        alloc: Global,
        lengths: Lengths,
        value: u8,
    ) -> Result<Buffers, AllocError> {
        let cells = vec![in alloc; u32::from(value); lengths.cells]?;
        let issues = vec![in alloc; value; lengths.issues]?;
        let tables = vec![in alloc; value; lengths.tables]?;
        let marks = vec![in alloc; value; lengths.marks]?;
        let held = vec![in alloc; u32::from(value); lengths.held]?;
        Ok(Buffers {
            cells,
            issues,
            tables,
            marks,
            held,
        })
    }

    // Reads the design at the start of a script. The cost of `read_design`.
    pub(crate) fn read(&mut self, script: &[u8]) -> DesignReading {
        read_design(
            script,
            &mut self.cells,
            &mut self.issues,
            &mut self.tables,
            &mut self.marks,
        )
    }

    // Whether everything past these lengths is 9. One step for each place.
    pub(crate) fn are_left(&self, from: Lengths) -> bool {
        self.cells.iter().skip(from.cells).all(|cell| *cell == 9)
            && self
                .issues
                .iter()
                .skip(from.issues)
                .all(|issue| *issue == 9)
            && self
                .tables
                .iter()
                .skip(from.tables)
                .all(|table| *table == 9)
            && self.marks.iter().skip(from.marks).all(|mark| *mark == 9)
            && self.held.iter().skip(from.held).all(|word| *word == 9)
    }
}

// The words and the text that answers are written into, and the bytes for the written design.
#[derive(Drop)]
pub struct Room {
    pub words: Vec<u32>,
    pub text: Vec<u8>,
    pub out: Vec<u8>,
}

impl Room {
    // Words and bytes of 9, as an operation is lent them here. Constant time.
    pub(crate) fn nines(alloc: Global) -> Result<Room, AllocError> {
        let words = vec![in alloc; 9u32; 8]?;
        let text = vec![in alloc; 9u8; 512]?;
        let out = vec![in alloc; 9u8; 512]?;
        Ok(Room { words, text, out })
    }

    // Whether nothing was written. Constant time.
    pub(crate) fn is_left(&self) -> bool {
        self.words.iter().all(|word| *word == 9)
            && self.text.iter().all(|byte| *byte == 9)
            && self.out.iter().all(|byte| *byte == 9)
    }
}

// Everything that a caller lends an operation, but for the room for its answer.
#[derive(Drop)]
pub struct State {
    pub design: Design,
    pub rows: Buffers,
}

// Row 0's own value in column 1 of table 0, which filling 0 has.
const VALUE_3: Cell = Cell {
    number: 3,
    issue: 0,
};

pub(crate) const HELD_3: HeldValue = HeldValue {
    filling: 0,
    value: Cell {
        number: 3,
        issue: 0,
    },
};

const COLUMN_1: Column = Column { table: 0, place: 1 };

// The query for it, without joins.
fn plain_query() -> Query {
    let none = Join {
        position: 0,
        constraint: 0,
    };
    Query {
        column: COLUMN_1,
        value: VALUE_3,
        joins: 0,
        first: none,
        second: none,
        third: none,
        fourth: none,
    }
}

// A run has no more steps than this: more than a script can have commands.
const MOST_COMMANDS: usize = 65537;

// An operation on buffers that are lent apart, since some of them are changed. The cost of `perform`.
fn carry_out(
    op: Operation,
    design: Design,
    cells: &[u32],
    issues: &[u8],
    tables: &[u8],
    marks: &mut [u8],
    held: &mut [u32],
    room: &mut Room,
) -> Answer {
    let lent = Rows {
        cells,
        issues,
        tables,
    };
    perform(
        op,
        design,
        &lent,
        marks,
        held,
        &mut room.words,
        &mut room.text,
    )
}

// ---- operations, which a lawful state allows. Each has the cost of the library's function, and of the test for cause 12.

impl State {
    // The cause with which an operation is refused, 0 for none.
    pub(crate) fn cause(&mut self, op: Operation, room: &mut Room) -> u8 {
        let rows = &mut self.rows;
        let answer = carry_out(
            op,
            self.design,
            &rows.cells,
            &rows.issues,
            &rows.tables,
            &mut rows.marks,
            &mut rows.held,
            room,
        );
        match answer {
            Answer::Refused(cause) => cause,
            _ => 0,
        }
    }

    fn step(&mut self, script: &[u8], at: usize, room: &mut Room) -> Step {
        let rows = &mut self.rows;
        step(
            script,
            at,
            self.design,
            &mut rows.cells,
            &mut rows.issues,
            &mut rows.tables,
            &mut rows.marks,
            &mut rows.held,
            &mut room.words,
            &mut room.text,
        )
    }

    // The step of the command with this number behind the END, whatever was answered before it.
    pub(crate) fn step_of(
        &mut self,
        script: &[u8],
        at: usize,
        number: usize,
        room: &mut Room,
    ) -> Step {
        let mut last = self.step(script, at, room);
        for _ in 0..number.min(MOST_COMMANDS) {
            last = self.step(script, last.next, room);
        }
        last
    }

    // The cause with which a step is refused, 0 for none; it has a room of its own.
    fn step_cause(&mut self, alloc: Global) -> Result<u8, AllocError> {
        let mut room = Room::nines(alloc)?;
        let script = b"\x10\x00\x04\x00\x00\x00";
        match self.step(script, 0, &mut room).answer {
            Answer::Refused(cause) => Ok(cause),
            _ => Ok(0),
        }
    }

    // The same of writing the design out.
    fn write_cause(&self, room: &mut Room) -> u8 {
        let rows = &self.rows;
        let lent = Rows {
            cells: &rows.cells,
            issues: &rows.issues,
            tables: &rows.tables,
        };
        let written = write(self.design, &lent, &rows.marks, &rows.held, &mut room.out);
        match written {
            Written::Refused(cause) => cause,
            Written::Bytes(_) => 0,
        }
    }

    // The causes with which REFER, DROP, PROBE, QUERY, a step, writing and a reason are refused. The value is dropped and referred to again, so that a
    // lawful state is as before; the step is the only one that leaves it changed, and lawful.
    pub(crate) fn causes(&mut self, alloc: Global, room: &mut Room) -> Result<[u8; 7], AllocError> {
        let drop = self.cause(Operation::Drop(HELD_3), room);
        let refer = self.cause(Operation::Refer(HELD_3), room);
        let probe = self.cause(Operation::Probe(COLUMN_1, VALUE_3), room);
        let query = self.cause(Operation::Query(plain_query()), room);
        let reason = self.cause(Operation::Reason(0), room);
        let step = self.step_cause(alloc)?;
        let write = self.write_cause(room);
        Ok([refer, drop, probe, query, step, write, reason])
    }
}

// The state that a script leaves behind its command with this number; the empty one if its design is refused. The cost of the operations.
pub(crate) fn state_after(
    alloc: Global,
    script: &[u8],
    number: usize,
) -> Result<State, AllocError> {
    let mut rows = Buffers::filled(alloc, Lengths::WHOLE, 0)?;
    let reading = rows.read(script);
    let mut state = State {
        design: reading.design,
        rows,
    };
    if let Verdict::Accepted(at) = reading.verdict {
        let mut room = Room::nines(alloc)?;
        state.step_of(script, at, number, &mut room);
    }
    Ok(state)
}

// ---- changes. Constant time.

fn low_byte(v: usize) -> u8 {
    (v % 256) as u8
}

fn low_word(v: usize) -> u32 {
    (v % 4294967296) as u32
}

// Past the end nothing is written.
fn put<T: Copy>(items: &mut [T], i: usize, item: T) {
    if let Some(place) = items.get_mut(i) {
        *place = item;
    }
}

fn table_of(columns: u8) -> Table {
    Table { columns, unique: 0 }
}

fn constraint_to(table: u8) -> Constraint {
    Constraint {
        source: Column { table: 0, place: 0 },
        target: Column { table, place: 1 },
    }
}

fn filling_from(low: u32) -> Filling {
    Filling {
        column: COLUMN_1,
        low,
        high: 99,
    }
}

// What is changed, where, and to what. Kinds: 0 a cell, 1 a row table, 2 a mark, 3 how many are held, 4 a held pair (1,000,000 × desk + 100,000 × issue +
// 1,000 × filling + value), 5 to 7 how many tables, constraints and fillings, 8 a row of two columns that goes, with its row table afterwards, 9 the columns of
// table 0, 10 those of table 7, 11 the target table of constraint 1, then from 0.0, 12 low of filling 0, 13 a cell's issue, 14 the named desk, 15 how many
// ranges a desk holds, 16 a range, at place 8 × desk + number (1,000,000 × filling + 1,000 × low + high), 17 a word of what is held; any other, nothing.
#[derive(Clone, Copy)]
pub struct Change {
    pub kind: usize,
    pub at: usize,
    pub to: usize,
}

impl Change {
    // Where what stands in the words of what is held is in state's specs/HeldWords.antt.
    fn held(self, held: &mut [u32]) {
        let (i, v) = (self.at, self.to);
        match self.kind {
            3 => put(held, 1, low_word(v)),
            4 if i < 64 => {
                let at = 2 + 4 * i;
                put(held, at, low_word(v / 1000000));
                put(held, at + 1, low_word(v / 1000 % 100));
                put(held, at + 2, low_word(v % 1000));
                put(held, at + 3, low_word(v / 100000 % 10));
            }
            14 => put(held, 0, low_word(v)),
            15 if i < 4 => put(held, 258 + 25 * i, low_word(v)),
            16 if i < 32 => {
                let at = 259 + 25 * (i / 8) + 3 * (i % 8);
                put(held, at, low_word(v / 1000000));
                put(held, at + 1, low_word(v / 1000 % 1000));
                put(held, at + 2, low_word(v % 1000));
            }
            17 => put(held, i, low_word(v)),
            _ => {}
        }
    }

    fn rows(self, rows: &mut Buffers) {
        let (i, v) = (self.at, self.to);
        match self.kind {
            0 => put(&mut rows.cells, i, low_word(v)),
            1 => put(&mut rows.tables, i, low_byte(v)),
            2 => put(&mut rows.marks, i, low_byte(v)),
            8 if i < Design::ROWS => {
                put(&mut rows.cells, 8 * i, 0);
                put(&mut rows.cells, 8 * i + 1, 0);
                put(&mut rows.tables, i, low_byte(v));
            }
            13 => put(&mut rows.issues, i, low_byte(v)),
            _ => self.held(&mut rows.held),
        }
    }

    fn design(self, design: &mut Design) {
        let v = self.to;
        match self.kind {
            5 => design.tables = v,
            6 => design.constraints = v,
            7 => design.fillings = v,
            9 => design.table[0] = table_of(low_byte(v)),
            10 => design.table[7] = table_of(low_byte(v)),
            11 => design.constraint[1] = constraint_to(low_byte(v)),
            12 => design.filling[0] = filling_from(low_word(v)),
            _ => {}
        }
    }

    pub(crate) fn apply(self, state: &mut State) {
        self.rows(&mut state.rows);
        self.design(&mut state.design);
    }
}
