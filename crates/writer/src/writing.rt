// `write_by_names`: refusals 12, 13 and 14 in order, and then the text.
ghost use Rattle.std.specs.Prelude.{◌≡◌, true};
ghost use Rattle.model.specs.Lent.{lent_in, model_in};
ghost use Rattle.model.specs.WellFormed.{well_formed_in};
ghost use Rattle.row_texts.specs.Emitted.{Emits};
ghost use Rattle.writer.specs.PolymerNumbers.{Walkable};
ghost use Rattle.writer.specs.Text.{text_of};
ghost use Rattle.writer.specs.Writing.{fitted, write_of, Writes};

use crate::atoms::put_atom_loop;
use crate::headers::put_opening;
use crate::polymers::put_polymer_list;
use crate::unwritable::first_unwritable;
use model::{Records, Room};
use refusals::Reason;
use wellformed::is_well_formed;

// The text from the first byte on. Into a buffer that is too short, an empty one also, no more is put than fits, and where the text ends is told
// all the same.
fn put_text(out: &mut [u8], records: Records, counts: Room) -> usize
    requires { Walkable records.chains.now counts }
    ensures { let l = lent_in records.entry in well_formed_in l counts ≡ true → Emits out 0 (text_of (model_in l counts)) result }
{
    let at = put_opening(out, 0);
    let at = put_polymer_list(out, at, records, counts.residues);
    put_atom_loop(out, at, records, counts)
}

// 14: nothing is put before it is known that all fits.
fn write_fitting(records: Records, counts: Room, out: &mut [u8]) -> Result<usize, Reason>
    requires { Walkable records.chains.now counts }
    ensures { let l = lent_in records.entry in well_formed_in l counts ≡ true → Writes out (λ size. fitted size (text_of (model_in l counts))) result }
{
    let mut none = [0u8; 0];
    let needed = put_text(&mut none, records, counts);
    if out.len() < needed {
        return Err(Reason::OutputTooShort { needed });
    }
    Ok(put_text(out, records, counts))
}

// 13: an atom that no text can hold.
fn write_writable(records: Records, counts: Room, out: &mut [u8]) -> Result<usize, Reason>
    requires { Walkable records.chains.now counts }
    ensures { let l = lent_in records.entry in well_formed_in l counts ≡ true → Writes out (write_of l counts) result }
{
    if let Some(atom) = first_unwritable(records, counts) {
        return Err(Reason::CannotBeWritten { atom });
    }
    write_fitting(records, counts, out)
}

// A model that is known to be well formed, as one that was just read. Of any other it is only promised that this ends: the counts are
// looked at, since the walks lean on them.
pub fn write_well_formed(records: Records, counts: Room, out: &mut [u8]) -> Result<usize, Reason>
    ensures { let l = lent_in records.entry in well_formed_in l counts ≡ true → Writes out (write_of l counts) result }
{
    if records.chains.len() < counts.chains || 1048576 < counts.atoms {
        return Err(Reason::NotWellFormed);
    }
    write_writable(records, counts, out)
}

// 12: a model that is not well formed; of any other, 13 and 14.
pub fn write_by_names(records: Records, counts: Room, out: &mut [u8]) -> Result<usize, Reason>
    ensures { Writes out (write_of (lent_in records.entry) counts) result }
{
    if is_well_formed(records, counts) {
        return write_well_formed(records, counts, out);
    }
    Err(Reason::NotWellFormed)
}
