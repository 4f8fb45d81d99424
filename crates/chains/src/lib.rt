// The chain list as it is lent: a slice of chain records, and the names of its chains in an array of numbers, over which all other layers work.
#![tactic(auto)]

mod chain;
mod chain_names;
mod places;

pub use chain::Chain;
pub use chain_names::{Names, kept, no_names, store_names, take_names};
pub use places::{clear_from, place_in};
