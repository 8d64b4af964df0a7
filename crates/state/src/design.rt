// A design as a value: its tables, constraints and fillings, each with how many are used. Unused places are 0. Which numbers have a row is seen from the lent
// row tables.
ghost use Rattle.std.specs.Prelude.{◌≡◌};
ghost use Rattle.state.specs.Design.{empty_design};

// A table's number of columns, and its unique columns: bit i for column i.
#[derive(Clone, Copy, Default, PartialEq, Eq)]
pub struct Table {
    pub columns: u8,
    pub unique: u8,
}

#[derive(Clone, Copy, Default, PartialEq, Eq)]
pub struct Column {
    pub table: u8,
    pub place: u8,
}

// A referential cache constraint, source to target.
#[derive(Clone, Copy, Default, PartialEq, Eq)]
pub struct Constraint {
    pub source: Column,
    pub target: Column,
}

// A filling column and its candidates, low to high.
#[derive(Clone, Copy, Default, PartialEq, Eq)]
pub struct Filling {
    pub column: Column,
    pub low: u32,
    pub high: u32,
}

#[derive(Clone, Copy)]
pub struct Design {
    pub tables: usize,
    pub table: [Table; 8],
    pub constraints: usize,
    pub constraint: [Constraint; 16],
    pub fillings: usize,
    pub filling: [Filling; 8],
}

// The largest counts of document 01, and the design that an empty list of commands describes.
impl Design {
    pub const TABLES: usize = 8;

    pub const COLUMNS: usize = 8;

    pub const CONSTRAINTS: usize = 16;

    pub const FILLINGS: usize = 8;

    pub const ROWS: usize = 512;

    pub const CELLS: usize = 4096;

    // the row table of a number without a row
    pub const FREE: u8 = 255;

    #[tactic(auto, unfolding(crate::specs::Design::empty_design, finite::specs::Finite::tab))]
    pub fn empty() -> Design
        ensures { result ≡ empty_design }
    {
        Design {
            tables: 0,
            table: [Table::default(); Design::TABLES],
            constraints: 0,
            constraint: [Constraint::default(); Design::CONSTRAINTS],
            fillings: 0,
            filling: [Filling::default(); Design::FILLINGS],
        }
    }
}
