// The model built in lent records, one slice to a field: step 8 of a row. A site comes with its chain's place; who holds the chain list finds it.
#![tactic(auto)]

mod atoms;
mod chains;
mod gathering;
mod held;
mod residues;
mod room;
mod seeking;
mod sites;
mod stores;

pub use chains::chain_place;
pub use gathering::gather;
pub use held::{Held, none_held};
pub use sites::{Counts, put_site, sizes_of, skip_row};
