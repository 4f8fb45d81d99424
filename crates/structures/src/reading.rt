// `read`: any bytes in; the model in the lent records, or a refusal.
ghost use Rattle.chains.specs.Names.{names_in};
ghost use Rattle.model.specs.LentNow.{lent_now, SameResidues, SameAtoms};
ghost use Rattle.reader.specs.Reading.{ReadBy};

use crate::runs::read_runs;
use building::Counts;
use chains::{Chain, clear_from};
use model::{AtomsMut, ResiduesMut, room_in};
use readings::{chains_left, close, halted_early};
use refusals::Refusal;
use rows::Settings;

pub fn read(
    text: &[u8],
    chains: &mut [Chain],
    residues: &mut ResiduesMut<'_>,
    atoms: &mut AtomsMut<'_>,
    settings: Settings,
) -> Result<Counts, Refusal>
    ensures same_residues { SameResidues residues.old residues.new }
    ensures same_atoms { SameAtoms atoms.old atoms.new }
    ensures reads { ReadBy settings (lent_now (names_in chains.old) residues.old atoms.old) text.now result (lent_now (names_in chains.new) residues.new atoms.new) }
{
    let room = room_in(chains.len(), residues, atoms);
    let early = halted_early(text);
    let standing = read_runs(text, early, chains, residues, atoms, settings, room);
    let answer = close(residues, atoms, standing);
    clear_from(chains, chains_left(answer));
    answer
}
