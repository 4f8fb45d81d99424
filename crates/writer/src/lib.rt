// `write_by_names`: the text of a model in lent records, byte for byte, or a refusal; `write_well_formed`: of one known to be well formed.
#![tactic(auto)]

mod atoms;
mod headers;
mod polymer_numbers;
mod polymers;
mod unwritable;
mod writing;

pub use writing::{write_by_names, write_well_formed};
