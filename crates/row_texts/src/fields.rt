// The text of each field of a row put at a place of a lent buffer.
#![tactic(auto, using(crate::proofs::EmittedLaws::then), unfolding(crate::specs::Fields::sequence_text, crate::specs::Fields::code_text, crate::specs::Fields::group_text, crate::specs::Fields::number_text))]

ghost use Rattle.std.specs.Prelude.{◌≡◌, true};
ghost use Rattle.numbers.specs.Rounding.{printable};
ghost use Rattle.row_texts.specs.Emitted.{Emits};
ghost use Rattle.row_texts.specs.Fields.{decimal_of, sequence_text, name_text, symbol_text, code_text, group_text, number_text, coordinate_text};

use crate::emitting::{place_after, place_on, put_byte, put_word};
use crate::packed_names::{plain_length, put_packed};
use numbers::PrintError;

// Where sequence number 0 stands among those moved up.
pub(crate) const ZERO: u32 = 0x8000_0000;

pub(crate) fn put_decimal(out: &mut [u8], at: usize, n: u64) -> usize
    ensures { Emits out at (decimal_of n) result }
{
    let placed = numbers::write_whole(out, at, n);
    place_after(at, placed)
}

pub(crate) fn put_sequence(out: &mut [u8], at: usize, sequence: u32) -> usize
    ensures { Emits out at (sequence_text sequence) result }
{
    if sequence < ZERO {
        let digits = put_byte(out, at, b'-');
        return put_decimal(out, digits, (ZERO - sequence) as u64);
    }
    put_decimal(out, at, (sequence - ZERO) as u64)
}

// A packed name, in quotes where it needs them.
pub(crate) fn put_name(out: &mut [u8], at: usize, name: u64) -> usize
    ensures { Emits out at (name_text name) result }
{
    match plain_length(name) {
        Some(_) => put_packed(out, at, name),
        None => put_quoted(out, at, name),
    }
}

// Any packed name, also one that needs quotes: by way of its text.
pub(crate) fn put_quoted(out: &mut [u8], at: usize, name: u64) -> usize
    ensures { Emits out at (name_text name) result }
{
    let mut cell = [0u8; 8];
    let n = names::unpack(name, &mut cell);
    let placed = tokens::quote_string(&cell[0..n], out, at);
    place_after(at, placed)
}

pub(crate) fn put_symbol(out: &mut [u8], at: usize, element: u8) -> usize
    ensures { Emits out at (symbol_text element) result }
{
    put_packed(out, at, names::symbol_of(element))
}

pub(crate) fn put_code(out: &mut [u8], at: usize, code: u8) -> usize
    ensures { Emits out at (code_text code) result }
{
    if code == 0 {
        return put_byte(out, at, b'?');
    }
    put_byte(out, at, code)
}

pub(crate) fn put_group(out: &mut [u8], at: usize, polymer: bool) -> usize
    ensures { Emits out at (group_text polymer) result }
{
    if polymer {
        return put_word(out, at, b"ATOM");
    }
    put_word(out, at, b"HETATM")
}

pub(crate) fn put_number(out: &mut [u8], at: usize, polymer: bool, number: u64) -> usize
    ensures { Emits out at (number_text polymer number) result }
{
    if polymer {
        return put_decimal(out, at, number);
    }
    put_byte(out, at, b'.')
}

// A coordinate that is not printable has no text; the model's are, where it is well formed.
pub(crate) fn put_coordinate(out: &mut [u8], at: usize, x: f64) -> usize
    ensures { printable x ≡ true → Emits out at (coordinate_text x) result }
{
    match numbers::write_thousandths(out, at, x) {
        Ok(next) => next,
        Err(PrintError::NoRoom(short)) => place_on(at, short.needed),
        Err(PrintError::BeyondReach) => at,
    }
}
