// The intake: any bytes in; chains, residues and atoms in the lent slices, or a refusal.
#![tactic(auto)]

mod reading;

pub use reading::read_by_names;
