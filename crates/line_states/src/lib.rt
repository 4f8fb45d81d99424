// What each line does to the state that a reader is in: loops opened, headers recorded, rows told from other lines.
#![tactic(auto)]

mod heads;
mod reading;

pub use heads::{Heads, State, start_heads};
pub use reading::{Does, Moved, read_line};
