// The reasons, in the order of their numbers, and a refusal: a reason and the line that gives it.
ghost use Rattle.std.specs.Prelude.{◌≡◌};
ghost use Rattle.refusals.specs.Reasons.{number_of, detail_of};

use crate::details::{Axis, Column, Label, Quantity, RecordKind};

#[derive(Clone, Copy)]
pub enum Reason {
    TextTooLong,
    OutsideDomain { byte: u8 },
    LineTooLong,
    TooManyHeaders,
    ColumnMissing(Column),
    RowShort,
    OutsideGrammar(Axis),
    BeyondReach(Quantity),
    NameTooLong(Label),
    NoRoom(RecordKind),
    UnknownResidue { place: usize },
    NotWellFormed,
    CannotBeWritten { atom: usize },
    OutputTooShort { needed: usize },
}

// The line is 0 where a reason is no line's.
#[derive(Clone, Copy)]
pub struct Refusal {
    pub line: usize,
    pub reason: Reason,
}

impl Reason {
    pub fn number(self) -> u8
        ensures { result ≡ number_of self }
    {
        match self {
            Reason::TextTooLong => 1,
            Reason::OutsideDomain { .. } => 2,
            Reason::LineTooLong => 3,
            Reason::TooManyHeaders => 4,
            Reason::ColumnMissing(_) => 5,
            Reason::RowShort => 6,
            Reason::OutsideGrammar(_) => 7,
            Reason::BeyondReach(_) => 8,
            Reason::NameTooLong(_) => 9,
            Reason::NoRoom(_) => 10,
            Reason::UnknownResidue { .. } => 11,
            Reason::NotWellFormed => 12,
            Reason::CannotBeWritten { .. } => 13,
            Reason::OutputTooShort { .. } => 14,
        }
    }

    pub fn detail(self) -> usize
        ensures { result ≡ detail_of self }
    {
        match self {
            Reason::OutsideDomain { byte } => byte as usize,
            Reason::ColumnMissing(column) => column as usize,
            Reason::OutsideGrammar(axis) => axis as usize,
            Reason::BeyondReach(quantity) => quantity.number(),
            Reason::NameTooLong(label) => label as usize,
            Reason::NoRoom(kind) => kind as usize,
            Reason::UnknownResidue { place } => place,
            Reason::CannotBeWritten { atom } => atom,
            Reason::OutputTooShort { needed } => needed,
            Reason::TextTooLong
            | Reason::LineTooLong
            | Reason::TooManyHeaders
            | Reason::RowShort
            | Reason::NotWellFormed => 0,
        }
    }
}
