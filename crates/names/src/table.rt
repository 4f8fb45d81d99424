// What a residue name leads to, by the table of residue names.
ghost use Rattle.std.specs.Prelude.{◌≡◌};
ghost use Rattle.names.specs.Places.{place_of};
ghost use Rattle.names.specs.Rows.{in_order, names};
ghost use Rattle.names.specs.Table.{resolve_of};

use crate::residues::StandardResidue;
use crate::rows::ROWS;

// The canonical name, and its standard residue.
#[derive(Clone, Copy)]
pub struct Resolved {
    pub name: u64,
    pub residue: StandardResidue,
}

// The place of a name among the rows, which stand in the order of their names.
fn place_in_order(name: u64) -> Option<usize>
    ensures { result ≡ place_of name (names in_order) }
{
    ROWS.binary_search_by_key(&name, |row| row.0).ok()
}

// What a name leads to; `None` for a name that the table does not have.
#[tactic(auto, using(crate::proofs::RowsInOrder::row_there, crate::proofs::RowsInOrder::resolved_at, crate::proofs::RowsInOrder::resolved_nowhere))]
pub fn resolve(name: u64) -> Option<Resolved>
    ensures { result ≡ resolve_of name }
{
    let i = place_in_order(name)?;
    let row = ROWS[i];
    Some(Resolved {
        name: row.1,
        residue: row.2,
    })
}
