// Run after run, up to the first refusal: the chain of a run is looked for in the list, or appended to it, and its rows are put in by its place.
ghost use Rattle.model.specs.Fold.{start};
ghost use Rattle.model.specs.LentNow.{SameAtoms};
ghost use Rattle.building.specs.Holds.{records_now};
ghost use Rattle.building.specs.Kinds.{KeepsResidues};
ghost use Rattle.acts.specs.Making.{made};
ghost use Rattle.acts.specs.Standing.{ahead, Passes};
ghost use Rattle.mmcif.specs.Acts.{acts_of};

use crate::stages::{first_row, take_run};
use acts::Standing;
use building::chain_place;
use field_slices::store;
use model::{AtomsMut, ResiduesMut, Room};
use refusals::Refusal;
use rows::Settings;

// The lines of the text, unless it was refused before them.
pub fn read_lines(
    text: &[u8],
    halt: Result<(), Refusal>,
    chains: &mut [u64],
    residues: &mut ResiduesMut<'_>,
    atoms: &mut AtomsMut<'_>,
    settings: Settings,
    room: Room,
) -> Standing
    ensures same_residues { KeepsResidues residues.old residues.new }
    ensures same_atoms { SameAtoms atoms.old atoms.new }
    ensures passes { Passes (records_now chains.old residues.old atoms.old) room (ahead halt (made room start (acts_of settings text.now))) result (records_now chains.new residues.new atoms.new) }
{
    let mut stage = first_row(text, settings, halt);
    let mut place = 0;
    while let Some(row) = stage.waiting {
        let name = row.site.chain;
        place = chain_place(chains, stage.standing.held.counts.chains, name, place);
        store(chains, place, name);
        stage = take_run(text, residues, atoms, settings, room, stage, place);
    }
    stage.standing
}
