// The polymer list: a row for each polymer residue; "omitted when empty".
ghost use Rattle.std.specs.Prelude.{◌≡◌, true, ◌+◌, ◌^◌, ◌<◌};
ghost use Rattle.model.specs.Lent.{lent_in, list_from, residue_in};
ghost use Rattle.model.specs.Lists.{any};
ghost use Rattle.model.specs.Termini.{is_polymer};
ghost use Rattle.row_texts.specs.Emitted.{Emits};
ghost use Rattle.wellformed.specs.Slices.{entries, residues_ascend};
ghost use Rattle.writer.specs.Text.{polymer_list};
ghost use Rattle.writer.specs.PolymerNumbers.{polymer_by, polymers_of};

use crate::headers::put_polymer_headers;
use crate::polymer_numbers::number_after;
use ascii::byte_at;
use field_slices::entry_at;
use model::{Records, Residue, chain_part, is_polymer};
use row_texts::{PolymerRow, put_polymer_row, put_word};

fn has_polymers(codes: &[u8], n: usize) -> bool
    ensures { result ≡ any is_polymer (list_from (entries codes.now) 0 n) }
{
    (0..n).any(|i| is_polymer(byte_at(codes, i)))
}

// The row of a residue; none where it is of no polymer.
fn put_polymer(out: &mut [u8], at: usize, residue: Residue, number: u64) -> usize
    requires { residue.chain + 1 < 2 ^ 64 }
    ensures { Emits out at (polymer_by residue number) result }
{
    if !is_polymer(residue.code) {
        return at;
    }
    let row = PolymerRow {
        entity: residue.chain + 1,
        number,
        residue: residue.name,
    };
    put_polymer_row(out, at, row)
}

fn put_polymer_rows(out: &mut [u8], at: usize, records: Records, n: usize) -> usize
    ensures { let l = lent_in records.entry in residues_ascend l.residue_keys n ≡ true → Emits out at (polymers_of (list_from (residue_in l) 0 n)) result }
{
    let mut place = at;
    let mut chain = 0;
    let mut number = 0;
    for i in 0..n {
        let residue = records.residue_at(i);
        number = number_after(number, chain, residue);
        // Of the key, whose range bounds it.
        chain = chain_part(entry_at(records.residue_keys, i, 0));
        place = put_polymer(out, place, residue, number);
    }
    place
}

pub(crate) fn put_polymer_list(out: &mut [u8], at: usize, records: Records, n: usize) -> usize
    ensures { let l = lent_in records.entry in residues_ascend l.residue_keys n ≡ true → Emits out at (polymer_list (polymers_of (list_from (residue_in l) 0 n))) result }
{
    if !has_polymers(records.residue_codes, n) {
        return at;
    }
    let at = put_polymer_headers(out, at);
    let at = put_polymer_rows(out, at, records, n);
    put_word(out, at, b"#\n")
}
