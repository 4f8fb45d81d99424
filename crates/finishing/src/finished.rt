// The model finished in the lent records.
ghost use Rattle.std.specs.Prelude.{List, ◌≡◌, ℕ};
ghost use Rattle.field_slices.specs.Clearing.{cleared};
ghost use Rattle.model.specs.LentNow.{lent_now, SameResidues, SameAtoms};
ghost use Rattle.finishing.specs.Finishing.{kept_by, finish_by, chains_kept, Ends};
ghost use Rattle.finishing.specs.Sizes.{SameSizes};

use crate::classes::classify_residues;
use crate::clearing::clear_records;
use crate::positions::position_residues;
use building::{Counts, sizes_of};
use model::{AtomsMut, ResiduesMut, Room, no_records};

// A residue that is neither resolved nor HETATM. No record stays where there is one.
#[derive(Clone, Copy)]
pub struct Unknown {
    // The first one's, from 1 over the model.
    pub place: usize,
}

// How many records stay: none where there is an unknown residue.
fn kept_by(unknown: Option<usize>, counts: Counts) -> Room
    ensures { result ≡ kept_by unknown counts }
{
    match unknown {
        None => sizes_of(counts),
        Some(_) => no_records(),
    }
}

fn finish_by(unknown: Option<usize>) -> Result<(), Unknown>
    ensures { result ≡ finish_by unknown }
{
    match unknown {
        None => Ok(()),
        Some(place) => Err(Unknown { place }),
    }
}

// Once all rows are in: until now the HETATM marks, 0 or 1, stood where the categories are to be, and the slices of codes and positions held
// anything. Where a residue is unknown the positions are of no use, and all records are cleared. Whoever holds the chains clears them.
pub fn finish_model(
    residues: &mut ResiduesMut<'_>,
    atoms: &mut AtomsMut<'_>,
    counts: Counts,
) -> Result<(), Unknown>
    ensures same_residues { SameResidues residues.old residues.new }
    ensures same_atoms { SameAtoms atoms.old atoms.new }
    ensures lengths { SameSizes residues.old atoms.old residues.new atoms.new }
    ensures ends { (names : List ℕ) →
        Ends (lent_now names residues.old atoms.old) counts result (lent_now (cleared 0 (chains_kept result counts) names) residues.new atoms.new) }
{
    let unknown = classify_residues(residues, atoms, counts);
    position_residues(residues, counts.residues);
    clear_records(residues, atoms, kept_by(unknown, counts));
    finish_by(unknown)
}
