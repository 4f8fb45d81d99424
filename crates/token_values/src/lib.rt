// What is asked of a token: whether it is a certain word, and which sequence number it writes.
#![tactic(auto)]

mod sequence;
mod words;

pub use sequence::sequence_of;
pub use words::{is_atom_site_item, is_cell_item, is_hetatm, is_item, is_loop, is_missing};
