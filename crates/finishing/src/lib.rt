// The model finished in the lent records once all rows are in: names resolved, standard codes, categories, positions, and zeros past the counts; or
// the first unknown residue, and zeros throughout.
#![tactic(auto)]

mod classes;
mod clearing;
mod finished;
mod positions;

pub use clearing::clear_records;
pub use finished::{Unknown, finish_model};
