// The tokens of a line, the items that they name, and how a name is quoted.
#![tactic(auto)]

mod items;
mod kinds;
mod longest;
mod quote;
mod split;
mod store;
mod tokenize;
mod trim;

pub use items::item_of;
pub use longest::LONGEST;
pub use quote::quote_string;
pub use split::{Part, part_of, split_mmcif_line};
pub use tokenize::tokenize_mmcif_line;
pub use trim::trim_start;
