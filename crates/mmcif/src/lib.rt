// The mmCIF format: what each line of a text asks for, by the states and the row rules, and the rows that are kept, run by run.
#![tactic(auto)]

mod plans;
mod reading_lines;
mod stages;

pub use reading_lines::read_lines;
pub use stages::{Stage, Waiting, first_row, take_run};
