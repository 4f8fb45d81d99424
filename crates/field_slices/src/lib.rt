// Lent slices, one to a field: an entry looked for among those that ascend, stored, taken out, and what is past the entries cleared.
#![tactic(auto)]

mod clearing;
mod entries;
mod places;
mod storing;

pub use clearing::clear_from;
pub use entries::entry_at;
pub use places::place_of_key;
pub use storing::store;
