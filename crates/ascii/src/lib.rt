// Bytes read and written as ASCII: the lowest layer, on which every other stands.
#![tactic(auto)]

mod bytes;
mod digits;
mod letters;
mod output;
mod signs;
mod words;

pub use bytes::byte_at;
pub use digits::{all_digits, count_digits, number_from};
pub use letters::eq_ignore_ascii_case;
pub use output::{NoRoom, fits_at, put_text};
pub use signs::after_sign;
pub use words::{same_bytes, starts_with};
