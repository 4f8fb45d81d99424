// `write_structure`: the text of the model in the lent slices, or a refusal.
ghost use Rattle.chains.specs.Names.{names_in};
ghost use Rattle.model.specs.Lent.{lent_of};
ghost use Rattle.writer.specs.Writing.{write_of, Writes};

use chains::{Chain, kept, no_names, take_names};
use model::{Records, Room};
use refusals::Reason;
use writer::write_by_names;

// The names are taken out of the chain records, and written from there: of a longer list a model uses the first 4,096.
pub fn write_structure(
    chains: &[Chain],
    residue_keys: &[u64],
    residue_names: &[u64],
    residue_codes: &[u8],
    residue_categories: &[u8],
    residue_positions: &[u8],
    atom_keys: &[u64],
    atom_names: &[u64],
    elements: &[u8],
    positions: &[[f64; 3]],
    occupancies: &[f64],
    chain_count: usize,
    residue_count: usize,
    atom_count: usize,
    out: &mut [u8],
) -> Result<usize, Reason>
    ensures { let l = lent_of (names_in chains.now) residue_keys.now residue_names.now residue_codes.now residue_categories.now residue_positions.now
        atom_keys.now atom_names.now elements.now positions.now occupancies.now in
        Writes out (write_of l (record { chains = chain_count; residues = residue_count; atoms = atom_count })) result }
{
    let mut names = no_names();
    take_names(chains, &mut names);
    let size = kept(chains.len());
    let records = Records {
        chains: &names[0..size],
        residue_keys,
        residue_names,
        residue_codes,
        residue_categories,
        residue_positions,
        atom_keys,
        atom_names,
        elements,
        positions,
        occupancies,
    };
    let counts = Room {
        chains: chain_count,
        residues: residue_count,
        atoms: atom_count,
    };
    write_by_names(records, counts, out)
}
