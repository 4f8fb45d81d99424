// Numbers: decimal text to the nearest double, a double to a fixed number of places, and a whole number to its digits.
#![tactic(auto)]

mod lengths;
mod powers;
mod printing;
mod reading;
mod rounding;
mod walking;

pub use lengths::{thousandths_length, whole_length};
pub use printing::{PrintError, write_thousandths, write_whole};
pub use reading::{NumberError, read_number};
pub use rounding::is_printable;
