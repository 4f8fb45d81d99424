// Text in, text out, over lent records.
ghost use Rattle.std.specs.Prelude.{◌≡◌, true};
ghost use Rattle.building.specs.Holds.{sizes_of};
ghost use Rattle.model.specs.LentNow.{lent_now, SameResidues, SameAtoms};
ghost use Rattle.model.specs.WellFormed.{well_formed_in};
ghost use Rattle.service.specs.Serving.{Serves, WritesOut};

use building::{Counts, sizes_of};
use field_slices::clear_from;
use finishing::clear_records;
use model::{AtomsMut, Records, ResiduesMut, no_records};
use reader::read_by_names;
use refusals::Refusal;
use results::Served;
use rows::Settings;
use writer::write_well_formed;

// The model in the records written, which is well formed since it was read; on a refusal the records are cleared.
fn write_out(
    out: &mut [u8],
    chains: &mut [u64],
    residues: &mut ResiduesMut<'_>,
    atoms: &mut AtomsMut<'_>,
    counts: Counts,
) -> Result<Served, Refusal>
    requires { well_formed_in (lent_now chains.old residues.old atoms.old) (sizes_of counts) ≡ true }
    ensures same_residues { SameResidues residues.old residues.new }
    ensures same_atoms { SameAtoms atoms.old atoms.new }
    ensures writes { WritesOut (lent_now chains.old residues.old atoms.old) counts out.old result (lent_now chains.new residues.new atoms.new) out.new }
{
    let records = Records::of_lent(chains, residues, atoms);
    match write_well_formed(records, sizes_of(counts), out) {
        Ok(written) => Ok(Served { written, counts }),
        Err(reason) => {
            clear_from(chains, 0, 0);
            clear_records(residues, atoms, no_records());
            Err(Refusal { line: 0, reason })
        }
    }
}

// Reads the text into the records, and writes what was read.
pub fn serve(
    text: &[u8],
    out: &mut [u8],
    chains: &mut [u64],
    residues: &mut ResiduesMut<'_>,
    atoms: &mut AtomsMut<'_>,
    settings: Settings,
) -> Result<Served, Refusal>
    ensures same_residues { SameResidues residues.old residues.new }
    ensures same_atoms { SameAtoms atoms.old atoms.new }
    ensures serves { Serves settings (lent_now chains.old residues.old atoms.old) text.now out.old result (lent_now chains.new residues.new atoms.new) out.new }
{
    match read_by_names(text, chains, residues, atoms, settings) {
        Ok(counts) => write_out(out, chains, residues, atoms, counts),
        Err(why) => Err(why),
    }
}
