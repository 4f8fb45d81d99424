// Whether a model in lent slices is well formed: document 01's list, one rule after the other.
#![tactic(auto)]

mod atoms;
mod chains;
mod fields;
mod order;
mod residues;
mod runs;
mod whole;

pub use whole::is_well_formed;
