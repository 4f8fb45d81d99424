// What is read of a text, whatever its format: what refuses it before all lines, and how its acts end, in the finished model or in a refusal.
#![tactic(auto)]

mod closing;
mod early;

pub use closing::{chains_left, close};
pub use early::halted_early;
