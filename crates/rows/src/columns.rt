// The column map: which column of the loop each of the fifteen items has, 64 where it has none.
ghost use Rattle.std.specs.Prelude.{◌≡◌, ◌<◌};
ghost use Rattle.rows.specs.Columns.{no_columns, with_column, column_of, is_absent, chosen, group, atom, residue, chain, sequence, insertion_code, x, y, z, occupancy, symbol};

// A number and no Option: the map is its fifteen bytes, `no_columns` promises that each is 64, and a map of Options would be twice as long for each row.
const ABSENT: u8 = 64;

#[derive(Clone, Copy)]
pub struct Columns {
    pub places: [u8; 15],
}

// No item has a column yet.
pub fn no_columns() -> Columns
    ensures { result ≡ no_columns }
{
    Columns {
        places: [ABSENT; 15],
    }
}

// The item takes the column, also where it had one before; an item that does not matter takes none.
pub fn with_column(columns: Columns, item: usize, column: u8) -> Columns
    ensures { result ≡ with_column columns item column }
{
    let mut places = columns.places;
    if item < 15 {
        places[item] = column;
    }
    Columns { places }
}

pub(crate) fn is_absent(column: u8) -> bool
    ensures { result ≡ is_absent column }
{
    column == ABSENT
}

impl Columns {
    fn column(self, item: usize) -> u8
        requires { item < 15 }
        ensures { result ≡ column_of self item }
    {
        self.places[item]
    }

    // The auth column where its header exists, whatever a row holds there; else the label column.
    fn chosen(self, auth: usize, label: usize) -> u8
        requires { (auth < 15) × (label < 15) }
        ensures { result ≡ chosen (column_of self auth) (column_of self label) }
    {
        let column = self.column(auth);
        if is_absent(column) {
            self.column(label)
        } else {
            column
        }
    }

    pub(crate) fn group(self) -> u8
        ensures { result ≡ group self }
    {
        self.column(0)
    }

    pub(crate) fn atom(self) -> u8
        ensures { result ≡ atom self }
    {
        self.chosen(1, 2)
    }

    pub(crate) fn residue(self) -> u8
        ensures { result ≡ residue self }
    {
        self.chosen(3, 4)
    }

    pub(crate) fn chain(self) -> u8
        ensures { result ≡ chain self }
    {
        self.chosen(5, 6)
    }

    pub(crate) fn sequence(self) -> u8
        ensures { result ≡ sequence self }
    {
        self.chosen(7, 8)
    }

    pub(crate) fn insertion_code(self) -> u8
        ensures { result ≡ insertion_code self }
    {
        self.column(9)
    }

    pub(crate) fn x(self) -> u8
        ensures { result ≡ x self }
    {
        self.column(10)
    }

    pub(crate) fn y(self) -> u8
        ensures { result ≡ y self }
    {
        self.column(11)
    }

    pub(crate) fn z(self) -> u8
        ensures { result ≡ z self }
    {
        self.column(12)
    }

    pub(crate) fn occupancy(self) -> u8
        ensures { result ≡ occupancy self }
    {
        self.column(13)
    }

    pub(crate) fn symbol(self) -> u8
        ensures { result ≡ symbol self }
    {
        self.column(14)
    }
}
