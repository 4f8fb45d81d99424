// The lower layers through C conventions, for the programs that run them beside the Rust.
#![tactic(auto)]

mod name;
mod number;
mod token;
