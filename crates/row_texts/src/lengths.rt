// How many bytes the text of each field of a row has, told without a buffer: digits are only counted, which takes less time than to write
// them.
#![tactic(auto, using(crate::proofs::FieldsAreShort::short_fields), unfolding(crate::specs::Fields::sequence_text, crate::specs::Fields::group_text, crate::specs::Fields::number_text))]

ghost use Rattle.std.specs.Prelude.{◌≡◌, true, ◌+◌, ◌≤◌, length};
ghost use Rattle.model.specs.WellFormed.{is_near};
ghost use Rattle.numbers.specs.Rounding.{printable};
ghost use Rattle.row_texts.specs.Fields.{decimal_of, sequence_text, name_text, symbol_text, group_text, number_text, coordinate_text, FieldLength};

use crate::fields::{ZERO, put_quoted, put_symbol};
use crate::packed_names::plain_length;
use rows::Point3;

pub(crate) fn decimal_length(n: u64) -> usize
    ensures { FieldLength (decimal_of n) result }
{
    numbers::whole_length(n)
}

pub(crate) fn sequence_length(sequence: u32) -> usize
    ensures { FieldLength (sequence_text sequence) result }
{
    if sequence < ZERO {
        return 1 + numbers::whole_length((ZERO - sequence) as u64);
    }
    numbers::whole_length((sequence - ZERO) as u64)
}

pub(crate) fn name_length(name: u64) -> usize
    ensures { FieldLength (name_text name) result }
{
    if let Some(n) = plain_length(name) {
        return n;
    }
    let mut none = [0u8; 0];
    put_quoted(&mut none, 0, name)
}

pub(crate) fn symbol_length(element: u8) -> usize
    ensures { FieldLength (symbol_text element) result }
{
    let mut none = [0u8; 0];
    put_symbol(&mut none, 0, element)
}

pub(crate) fn group_length(polymer: bool) -> usize
    ensures { FieldLength (group_text polymer) result }
{
    if polymer {
        return 4;
    }
    6
}

pub(crate) fn number_length(polymer: bool, number: u64) -> usize
    ensures { FieldLength (number_text polymer number) result }
{
    if polymer {
        return numbers::whole_length(number);
    }
    1
}

// A coordinate that is not printable has no text.
fn coordinate_length(x: f64) -> usize
    ensures { (printable x ≡ true → result ≡ length (coordinate_text x)) × (result ≤ 25) }
{
    numbers::thousandths_length(x)
}

// The three coordinates together.
pub(crate) fn position_length(position: Point3) -> usize
    ensures { (is_near position ≡ true → result ≡ length (coordinate_text position.x) + length (coordinate_text position.y) + length (coordinate_text position.z)) × (result ≤ 75) }
{
    coordinate_length(position.x) + coordinate_length(position.y) + coordinate_length(position.z)
}
