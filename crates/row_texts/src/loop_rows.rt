// A row of the atom loop and one of the polymer list, field by field.
ghost use Rattle.std.specs.Prelude.{◌≡◌, true, length, take, drop};
ghost use Rattle.tokens.specs.Line.{spaced};
ghost use Rattle.model.specs.WellFormed.{is_near};
ghost use Rattle.row_texts.specs.Emitted.{Emits};
ghost use Rattle.row_texts.specs.Rows.{blanked, atom_fields, line_text, atom_text, polymer_text};

use crate::emitting::{put_byte, put_word};
use crate::fields::{
    put_code, put_coordinate, put_decimal, put_group, put_name, put_number, put_sequence,
    put_symbol,
};
use crate::row_ends::{past_atom_row, past_polymer_row};
use rows::Point3;

// What a row of the atom loop says.
#[derive(Clone, Copy)]
pub struct AtomRow {
    // Beside the number and not in an Option with it: the theorems of the return trip speak of both in every row.
    pub polymer: bool,
    pub id: u64,
    pub element: u8,
    pub atom: u64,
    pub residue: u64,
    pub chain: u64,
    pub entity: u64,
    // Its residue's place among the polymer residues of its chain, from 1; not asked for where the residue is none.
    pub number: u64,
    // 0 for none, as in the keys of lent records.
    pub insertion_code: u8,
    pub position: Point3,
    // Moved up by 2 ^ 31.
    pub sequence: u32,
}

#[derive(Clone, Copy)]
pub struct PolymerRow {
    pub entity: u64,
    pub number: u64,
    pub residue: u64,
}

// Its first seven fields, a blank after each.
fn put_labels(out: &mut [u8], at: usize, row: AtomRow) -> usize
    ensures { Emits out at (blanked (take 7 (atom_fields row))) result }
{
    let at = put_group(out, at, row.polymer);
    let at = put_byte(out, at, b' ');
    let at = put_decimal(out, at, row.id);
    let at = put_byte(out, at, b' ');
    let at = put_symbol(out, at, row.element);
    let at = put_byte(out, at, b' ');
    let at = put_name(out, at, row.atom);
    let at = put_byte(out, at, b' ');
    // The alternate.
    let at = put_byte(out, at, b'.');
    let at = put_byte(out, at, b' ');
    let at = put_name(out, at, row.residue);
    let at = put_byte(out, at, b' ');
    let at = put_name(out, at, row.chain);
    put_byte(out, at, b' ')
}

// The three fields after them, a blank after each.
fn put_numbering(out: &mut [u8], at: usize, row: AtomRow) -> usize
    ensures { Emits out at (blanked (take 3 (drop 7 (atom_fields row)))) result }
{
    let at = put_decimal(out, at, row.entity);
    let at = put_byte(out, at, b' ');
    let at = put_number(out, at, row.polymer, row.number);
    let at = put_byte(out, at, b' ');
    let at = put_code(out, at, row.insertion_code);
    put_byte(out, at, b' ')
}

// The coordinates, a blank after each.
fn put_position(out: &mut [u8], at: usize, row: AtomRow) -> usize
    ensures { is_near row.position ≡ true → Emits out at (blanked (take 3 (drop 10 (atom_fields row)))) result }
{
    let at = put_coordinate(out, at, row.position.x);
    let at = put_byte(out, at, b' ');
    let at = put_coordinate(out, at, row.position.y);
    let at = put_byte(out, at, b' ');
    let at = put_coordinate(out, at, row.position.z);
    put_byte(out, at, b' ')
}

// The last six fields, and the end of the line.
fn put_author(out: &mut [u8], at: usize, row: AtomRow) -> usize
    ensures { Emits out at (line_text (spaced (drop 13 (atom_fields row)))) result }
{
    // The occupancy and B.
    let at = put_word(out, at, b"1.00");
    let at = put_byte(out, at, b' ');
    let at = put_word(out, at, b"0.00");
    let at = put_byte(out, at, b' ');
    let at = put_sequence(out, at, row.sequence);
    let at = put_byte(out, at, b' ');
    let at = put_name(out, at, row.residue);
    let at = put_byte(out, at, b' ');
    let at = put_name(out, at, row.chain);
    let at = put_byte(out, at, b' ');
    let at = put_name(out, at, row.atom);
    put_byte(out, at, b'\n')
}

// Every coordinate has a text where the position is near enough, as in every well-formed model; else only the buffer's length is promised.
// Where no byte of the buffer is left, the row is only measured.
pub fn put_atom_row(out: &mut [u8], at: usize, row: AtomRow) -> usize
    ensures { (is_near row.position ≡ true → Emits out at (atom_text row) result) × (length out.new ≡ length out.old) }
{
    if out.len() <= at {
        return past_atom_row(at, row);
    }
    let at = put_labels(out, at, row);
    let at = put_numbering(out, at, row);
    let at = put_position(out, at, row);
    put_author(out, at, row)
}

pub fn put_polymer_row(out: &mut [u8], at: usize, row: PolymerRow) -> usize
    ensures { Emits out at (polymer_text row) result }
{
    if out.len() <= at {
        return past_polymer_row(at, row);
    }
    let at = put_decimal(out, at, row.entity);
    let at = put_byte(out, at, b' ');
    let at = put_decimal(out, at, row.number);
    let at = put_byte(out, at, b' ');
    let at = put_name(out, at, row.residue);
    let at = put_byte(out, at, b' ');
    // No heterogeneity.
    let at = put_byte(out, at, b'n');
    put_byte(out, at, b'\n')
}
