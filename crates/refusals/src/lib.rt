// Why a text is refused, or a model is not written: every reason once, with the documents' number and detail of each.
#![tactic(auto)]

mod details;
mod reasons;

pub use details::{Axis, Column, Label, Quantity, RecordKind, column_at};
pub use reasons::{Reason, Refusal};
