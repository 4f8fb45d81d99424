// A text before its lines are read: whether it is in the domain, and where each of its lines ends.
#![tactic(auto)]

mod domain;
mod line_reader;
mod lines;

pub use domain::{Outside, first_outside};
pub use line_reader::{LineReader, line_from};
pub use lines::Line;
