// The operations with their operands, as they stand in a script. specs/Meaning.antt sets out the model's operation for each (`operation_of`).
use crate::cell::Cell;
use crate::design::Column;
use crate::held::{HeldValue, Range};

// An earlier position of a query, and the constraint by which a row is joined to it.
#[derive(Clone, Copy, Default, PartialEq, Eq)]
pub struct Join {
    pub position: u8,
    pub constraint: u8,
}

// A query's operands. Of its four pairs the first `joins` are used; an enum holds no array, so they are four fields.
#[derive(Clone, Copy)]
pub struct Query {
    pub column: Column,
    pub value: Cell,
    pub joins: u8,
    pub first: Join,
    pub second: Join,
    pub third: Join,
    pub fourth: Join,
}

// A total's operands: a query's, and the position and the column whose cells are added up.
#[derive(Clone, Copy)]
pub struct Total {
    pub query: Query,
    pub position: u8,
    pub column: u8,
}

#[derive(Clone, Copy)]
pub enum Operation {
    Refer(HeldValue),
    Drop(HeldValue),
    Probe(Column, Cell),
    Query(Query),
    // whether the design is even
    Evenness,
    Total(Total),
    // the smallest knot
    SmallestKnot,
    // the desk for what follows
    Name(u8),
    // the value whose reference would give the probe a ground
    Opener(Column, Cell),
    // why a row is cached
    Reason(u16),
    // holding a range for the named desk, and dropping one
    ReferRange(Range),
    DropRange(Range),
}
