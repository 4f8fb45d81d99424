// Lent slices with a gap, before which the next entry is put in: where an entry belongs, and the gap moved there, in a whole slice or
// in an area of it.
#![tactic(auto)]

mod areas;
mod gaps;
mod spots;

pub use areas::{Area, move_in, put_in, spot_in, spot_in_key, stand};
