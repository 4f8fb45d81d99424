// The reading of the lines over chain records, run by run: the chain of a run is looked for in the records, or appended to them, and its rows are put in by its place.
ghost use Rattle.model.specs.Fold.{start};
ghost use Rattle.model.specs.LentNow.{SameAtoms};
ghost use Rattle.building.specs.Holds.{records_now};
ghost use Rattle.building.specs.Kinds.{KeepsResidues};
ghost use Rattle.acts.specs.Making.{made};
ghost use Rattle.acts.specs.Standing.{ahead, Passes};
ghost use Rattle.mmcif.specs.Acts.{acts_of};
ghost use Rattle.chains.specs.Names.{names_in};

use acts::Standing;
use chains::{Chain, place_in};
use mmcif::{first_row, take_run};
use model::{AtomsMut, ResiduesMut, Room};
use refusals::Refusal;
use rows::Settings;

// The lines of the text, unless it was refused before them.
pub(crate) fn read_runs(
    text: &[u8],
    halt: Result<(), Refusal>,
    chains: &mut [Chain],
    residues: &mut ResiduesMut<'_>,
    atoms: &mut AtomsMut<'_>,
    settings: Settings,
    room: Room,
) -> Standing
    ensures same_residues { KeepsResidues residues.old residues.new }
    ensures same_atoms { SameAtoms atoms.old atoms.new }
    ensures passes { Passes (records_now (names_in chains.old) residues.old atoms.old) room (ahead halt (made room start (acts_of settings text.now))) result
        (records_now (names_in chains.new) residues.new atoms.new) }
{
    let mut stage = first_row(text, settings, halt);
    let mut place = 0;
    while let Some(row) = stage.waiting {
        place = place_in(
            chains,
            stage.standing.held.counts.chains,
            row.site.chain,
            place,
        );
        stage = take_run(text, residues, atoms, settings, room, stage, place);
    }
    stage.standing
}
