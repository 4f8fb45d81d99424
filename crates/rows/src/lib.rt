// One row of an atom loop: its columns, its fields, and the rules that make a site of them.
#![tactic(auto)]

mod columns;
mod fields;
mod reach;
mod rules;
mod settings;

pub use columns::{Columns, no_columns, with_column};
pub use fields::{Fields, Measure, Name, ReachError, fields_of};
pub use rules::{Point3, Site, row_of};
pub use settings::{Settings, Unreadable, assuming};
