// The texts of rows, put one field after the other into a lent buffer.
#![tactic(auto)]

mod emitting;
mod fields;
mod lengths;
mod loop_rows;
mod packed_names;
mod row_ends;

pub use emitting::put_word;
pub use loop_rows::{AtomRow, PolymerRow, put_atom_row, put_polymer_row};
pub use row_ends::{past_atom_row, past_polymer_row};
