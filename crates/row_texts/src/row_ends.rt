// Where a row that begins at a place ends, told without a buffer.
ghost use Rattle.std.specs.Prelude.{◌≡◌, true, length};
ghost use Rattle.model.specs.WellFormed.{is_near};
ghost use Rattle.row_texts.specs.Emitted.{Ends};
ghost use Rattle.row_texts.specs.Rows.{atom_text, polymer_text};

use crate::emitting::place_on;
use crate::lengths::{
    decimal_length, group_length, name_length, number_length, position_length, sequence_length,
    symbol_length,
};
use crate::loop_rows::{AtomRow, PolymerRow};

// The three names stand in it twice. The nineteen bytes after the fields, the alternate, the insertion code, the occupancy and B are 29.
pub fn past_atom_row(at: usize, row: AtomRow) -> usize
    ensures { is_near row.position ≡ true → Ends at (atom_text row) result }
{
    let group = group_length(row.polymer);
    let id = decimal_length(row.id);
    let symbol = symbol_length(row.element);
    let names = name_length(row.atom) + name_length(row.residue) + name_length(row.chain);
    let entity = decimal_length(row.entity);
    let number = number_length(row.polymer, row.number);
    let position = position_length(row.position);
    let sequence = sequence_length(row.sequence);
    place_on(
        at,
        29 + group + id + symbol + names + entity + number + position + sequence + names,
    )
}

// The four bytes after the fields, and the `n` for no heterogeneity, are 5.
pub fn past_polymer_row(at: usize, row: PolymerRow) -> usize
    ensures { Ends at (polymer_text row) result }
{
    let entity = decimal_length(row.entity);
    let number = decimal_length(row.number);
    place_on(at, 5 + entity + number + name_length(row.residue))
}
