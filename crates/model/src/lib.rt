// The model that rows make. Its definitions and theorems are in specs/ and proofs/; here is what is said of one residue by value.
#![tactic(auto)]

mod classes;
mod keys;
mod lent;
mod neighbours;
mod records;
mod room;
mod taken_out;
mod termini;

pub use classes::{Class, class_of};
pub use keys::{chain_part, code_part, residue_key, sequence_part};
pub use lent::{AtomsMut, ResiduesMut, room_in};
pub use neighbours::{is_alone, met_with, pass_lesser, position_between};
pub use records::Records;
pub use room::{Room, no_records, room_by};
pub use taken_out::{Atom, Residue};
pub use termini::is_polymer;
