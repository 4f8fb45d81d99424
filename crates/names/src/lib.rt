// Names as numbers, and what a name means: the residues that it stands for, and the elements.
#![tactic(auto)]

mod elements;
mod packing;
mod residues;
mod rows;
mod table;

pub use elements::{element_of, symbol_of};
pub use packing::{after_first, first_byte, pack, unpack};
pub use residues::{Polymer, ResidueCategory, ResiduePosition, StandardResidue};
pub use table::{Resolved, resolve};
