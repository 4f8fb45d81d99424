// `read_by_names`: any bytes in; the model in the lent records, or a refusal.
ghost use Rattle.model.specs.LentNow.{lent_now, SameResidues, SameAtoms};
ghost use Rattle.reader.specs.Reading.{ReadBy};

use building::Counts;
use field_slices::clear_from;
use mmcif::read_lines;
use model::{AtomsMut, ResiduesMut, room_in};
use readings::{chains_left, close, halted_early};
use refusals::Refusal;
use rows::Settings;

pub fn read_by_names(
    text: &[u8],
    chains: &mut [u64],
    residues: &mut ResiduesMut<'_>,
    atoms: &mut AtomsMut<'_>,
    settings: Settings,
) -> Result<Counts, Refusal>
    ensures same_residues { SameResidues residues.old residues.new }
    ensures same_atoms { SameAtoms atoms.old atoms.new }
    ensures reads { ReadBy settings (lent_now chains.old residues.old atoms.old) text.now result (lent_now chains.new residues.new atoms.new) }
{
    let room = room_in(chains.len(), residues, atoms);
    let early = halted_early(text);
    let standing = read_lines(text, early, chains, residues, atoms, settings, room);
    let answer = close(residues, atoms, standing);
    clear_from(chains, chains_left(answer), 0);
    answer
}
