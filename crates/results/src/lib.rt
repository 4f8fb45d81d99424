// What the service answers, and what the host call tells of it in a lent result.
#![tactic(auto)]

mod answers;
mod results;

pub use answers::Served;
pub use results::{is_whole, put_numbers, status_of};
