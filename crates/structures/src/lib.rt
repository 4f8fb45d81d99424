// The reader and the writer over lent records, the chain list among them as a slice of chain records.
#![tactic(auto)]

mod reading;
mod runs;
mod writing;

pub use reading::read;
pub use writing::write_structure;
