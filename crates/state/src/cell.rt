// A value, as a cell has it: a number and an issue. The only ways to read one: a cell of a lent row, whether it is blank or has no number, whether
// two are equal, which is the lower, and what it adds to a total. Constant time.
ghost use Rattle.std.specs.Prelude.{◌≤◌, ◌<◌, ◌≡◌, length};
ghost use Rattle.model.specs.Cell.{amount, equal, is_blank, lower_cell, numberless};
ghost use Rattle.state.specs.Cells.{cells_in};
ghost use Rattle.state.specs.Meaning.{cell_at, cell_of};

// `<` is the model's order, by number and then by issue. `==` is not the model's equality, by which a blank equals nothing: that is `same_cell`.
#[derive(Clone, Copy, Default, PartialEq, Eq, PartialOrd, Ord)]
pub struct Cell {
    pub number: u32,
    pub issue: u8,
}

// Column c of row r.
pub fn cell_at(cells: &[u32], issues: &[u8], r: usize, c: usize) -> Cell
    requires { (r < 512) × (c < 8) × (4096 ≤ length cells.now) × (4096 ≤ length issues.now) }
    ensures { result ≡ cell_at (cells_in cells.now issues.now) r c }
{
    Cell {
        number: cells[8 * r + c],
        issue: issues[8 * r + c],
    }
}

// Whether the cell is blank.
#[tactic(auto, unfolding(model::specs::Cell::is_blank))]
pub fn is_blank(a: Cell) -> bool
    ensures { result ≡ is_blank (cell_of a) }
{
    a == Cell::default()
}

// Whether the cell has no number, whatever its issue.
pub fn is_numberless(a: Cell) -> bool
    ensures { result ≡ numberless (cell_of a) }
{
    a.number == 0
}

// Whether the two are equal, and not blank.
#[tactic(auto, unfolding(model::specs::Cell::equal))]
pub fn same_cell(a: Cell, b: Cell) -> bool
    ensures { result ≡ equal (cell_of a) (cell_of b) }
{
    !is_blank(a) && a == b
}

// Whether a is the lower: by number, then by issue.
#[tactic(auto, unfolding(model::specs::Cell::lower_cell, finite::specs::Finite::lower_then))]
pub fn lower_cell(a: Cell, b: Cell) -> bool
    ensures { result ≡ lower_cell (cell_of a) (cell_of b) }
{
    a < b
}

// What the cell adds to a total: its number alone.
pub fn amount_of(a: Cell) -> u32
    ensures { result ≡ amount (cell_of a) }
{
    a.number
}
