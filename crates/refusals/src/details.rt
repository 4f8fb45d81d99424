// What a reason names: a column, an axis, a number, a name or a record, each numbered from 1 in the order in which it is asked for.
ghost use Rattle.std.specs.Prelude.{◌≡◌};
ghost use Rattle.refusals.specs.Details.{column_at, quantity_number};

// The columns that a row must have.
#[derive(Clone, Copy)]
pub enum Column {
    Atom = 1,
    Residue = 2,
    Chain = 3,
    Sequence = 4,
    X = 5,
    Y = 6,
    Z = 7,
}

#[derive(Clone, Copy)]
pub enum Axis {
    X = 1,
    Y = 2,
    Z = 3,
}

// The numbers of a row.
#[derive(Clone, Copy)]
pub enum Quantity {
    Coordinate(Axis),
    Occupancy,
}

// The names of a row.
#[derive(Clone, Copy)]
pub enum Label {
    Atom = 1,
    Residue = 2,
    Chain = 3,
}

// What a row may need room for.
#[derive(Clone, Copy)]
pub enum RecordKind {
    Chain = 1,
    Residue = 2,
    Atom = 3,
}

// The column that has so many before it; the last, where there is none.
pub fn column_at(before: u8) -> Column
    ensures { result ≡ column_at before }
{
    match before {
        0 => Column::Atom,
        1 => Column::Residue,
        2 => Column::Chain,
        3 => Column::Sequence,
        4 => Column::X,
        5 => Column::Y,
        _ => Column::Z,
    }
}

impl Quantity {
    pub(crate) fn number(self) -> usize
        ensures { result ≡ quantity_number self }
    {
        match self {
            Quantity::Coordinate(axis) => axis as usize,
            Quantity::Occupancy => 4,
        }
    }
}
