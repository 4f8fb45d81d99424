// The reader and the writer through C conventions, for the programs that run them beside the Rust.
#![tactic(auto)]

mod reading;
mod writing;
