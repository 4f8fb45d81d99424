// The service through C conventions: the exported functions, and what they tell in a lent result.
#![tactic(auto)]

mod calls;

pub use calls::{structure_intake, structure_intake_lent};
