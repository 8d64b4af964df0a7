// Tables and their columns.
ghost use Rattle.std.specs.Prelude.{◌≡◌, ◌<◌};
ghost use Rattle.model.specs.Scheme.{is_column};
ghost use Rattle.state.specs.Meaning.{bit, column_of, scheme_of};
ghost use Rattle.state.specs.Lawful.{table_fits};
ghost use Rattle.lawful.specs.Parts.{tables_lawful};

use crate::places::places_lawful;
use state::{Column, Design, Table, table_at};

// Whether bit i of u is set. Constant time.
#[tactic(auto, using(crate::proofs::Bits::bit_past), unfolding(state::specs::Meaning::bit))]
pub fn has_bit(u: u8, i: u8) -> bool
    ensures { result ≡ bit u i }
{
    i < 8 && (u >> i) % 2 == 1
}

// Whether a TABLE command's operands are right: 1 to 8 columns, and no unique bit past them. Constant time.
#[tactic(auto, using(crate::proofs::Bits::power), unfolding(state::specs::Lawful::table_fits))]
pub fn table_fits(t: Table) -> bool
    ensures { result ≡ table_fits t }
{
    (1..=8).contains(&t.columns) && u16::from(t.unique) < 1 << t.columns
}

// Whether the design has the column. Constant time.
#[tactic(auto, unfolding(model::specs::Scheme::is_column, state::specs::Meaning::scheme_of))]
pub fn is_column(d: Design, k: Column) -> bool
    ensures { result ≡ is_column (scheme_of d) (column_of k) }
{
    let t = usize::from(k.table);
    t < d.tables && k.place < table_at(d, t).columns
}

// Whether the column is unique. Constant time.
#[tactic(auto, unfolding(state::specs::Meaning::scheme_of))]
pub fn is_unique(d: Design, k: Column) -> bool
    ensures { result ≡ (scheme_of d).unique (column_of k) }
{
    has_bit(table_at(d, usize::from(k.table)).unique, k.place)
}

// Whether all places of the tables are lawful: tables that fit, or unused and 0. One look at each of the 8 places.
pub(crate) fn tables_lawful(d: Design) -> bool
    ensures { result ≡ tables_lawful d }
{
    places_lawful(
        Design::TABLES,
        d.tables,
        |i| table_fits(d.table[i]),
        |i| d.table[i] == Table::default(),
    )
}
