// The end of a reading: the records gathered and the model finished, or every record cleared.
ghost use Rattle.std.specs.Prelude.{List, ◌≡◌, ℕ};
ghost use Rattle.field_slices.specs.Clearing.{cleared};
ghost use Rattle.model.specs.LentNow.{lent_now, SameResidues, SameAtoms};
ghost use Rattle.finishing.specs.Sizes.{SameSizes};
ghost use Rattle.readings.specs.Closing.{finished_by, chains_left, Closes};

use acts::Standing;
use building::{Counts, gather};
use finishing::{Unknown, clear_records, finish_model};
use model::{AtomsMut, ResiduesMut, no_records};
use refusals::{Reason, Refusal};

// No `?`, since neither error is of this crate.
fn finished_by(finish: Result<(), Unknown>, counts: Counts) -> Result<Counts, Refusal>
    ensures { result ≡ finished_by finish counts }
{
    match finish {
        Err(unknown) => Err(Refusal {
            line: 0,
            reason: Reason::UnknownResidue {
                place: unknown.place,
            },
        }),
        Ok(()) => Ok(counts),
    }
}

// How many chains stay: as many as were read, and none after a refusal.
pub fn chains_left(answer: Result<Counts, Refusal>) -> usize
    ensures { result ≡ chains_left answer }
{
    match answer {
        Ok(counts) => counts.chains,
        Err(_) => 0,
    }
}

// All acts are done, or one was refused: then every record is zero. Whoever holds the chains clears them past those that are left.
pub fn close(
    residues: &mut ResiduesMut<'_>,
    atoms: &mut AtomsMut<'_>,
    standing: Standing,
) -> Result<Counts, Refusal>
    ensures same_residues { SameResidues residues.old residues.new }
    ensures same_atoms { SameAtoms atoms.old atoms.new }
    ensures lengths { SameSizes residues.old atoms.old residues.new atoms.new }
    ensures closes { (names : List ℕ) →
        Closes (lent_now names residues.old atoms.old) standing result (lent_now (cleared 0 (chains_left result) names) residues.new atoms.new) }
{
    if let Err(why) = standing.halt {
        clear_records(residues, atoms, no_records());
        return Err(why);
    }
    gather(residues, atoms, standing.held);
    let counts = standing.held.counts;
    let finish = finish_model(residues, atoms, counts);
    finished_by(finish, counts)
}
