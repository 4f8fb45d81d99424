// What a text asks for, whatever its format, and what that does to the lent slices: a row skipped, a site kept, or a refusal.
#![tactic(auto)]

mod act;
mod doing;

pub use act::Act;
pub use doing::{Standing, keep_site, pass_act};
