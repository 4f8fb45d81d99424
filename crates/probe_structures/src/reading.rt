// The reader through C conventions: what it answers in ten numbers, and the model in the slices.
ghost use Rattle.std.specs.Prelude.{◌≡◌};
ghost use Rattle.std.proofs.lemmas.List.Edits.{sets};
ghost use Rattle.chains.specs.Names.{names_at};
ghost use Rattle.field_slices.specs.Slice.{held};
ghost use Rattle.model.specs.Lent.{lent_by};
ghost use Rattle.probe_structures.specs.Readings.{number_in, line_in, detail_in, counts_in, numbers_of, ReadInto};

use building::Counts;
use chains::Chain;
use field_slices::store;
use model::{AtomsMut, ResiduesMut};
use refusals::Refusal;

fn number_in(answer: Result<Counts, Refusal>) -> u8
    ensures { result ≡ number_in answer }
{
    match answer {
        Ok(_) => 0,
        Err(why) => {
            let reason = why.reason;
            reason.number()
        }
    }
}

fn line_in(answer: Result<Counts, Refusal>) -> usize
    ensures { result ≡ line_in answer }
{
    match answer {
        Ok(_) => 0,
        Err(why) => why.line,
    }
}

fn detail_in(answer: Result<Counts, Refusal>) -> usize
    ensures { result ≡ detail_in answer }
{
    match answer {
        Ok(_) => 0,
        Err(why) => {
            let reason = why.reason;
            reason.detail()
        }
    }
}

fn counts_in(answer: Result<Counts, Refusal>) -> Counts
    ensures { result ≡ counts_in answer }
{
    match answer {
        Ok(counts) => counts,
        Err(_) => Counts {
            chains: 0,
            residues: 0,
            atoms: 0,
            rows: 0,
            skipped: 0,
            outdone: 0,
            assumed: 0,
        },
    }
}

fn put_numbers(numbers: &mut [u64], answer: Result<Counts, Refusal>)
    ensures { numbers.new ≡ sets numbers.old 0 (numbers_of answer) }
{
    let counts = counts_in(answer);
    store(numbers, 0, number_in(answer) as u64);
    store(numbers, 1, line_in(answer) as u64);
    store(numbers, 2, detail_in(answer) as u64);
    store(numbers, 3, counts.chains as u64);
    store(numbers, 4, counts.residues as u64);
    store(numbers, 5, counts.atoms as u64);
    store(numbers, 6, counts.rows as u64);
    store(numbers, 7, counts.skipped as u64);
    store(numbers, 8, counts.outdone as u64);
    store(numbers, 9, counts.assumed as u64);
}

// Number, line and detail of a refusal, then chains, residues, atoms, rows, skipped, outdone and assumed; zeros for what there is none of.
#[unsafe(no_mangle)]
pub extern "C" fn probe_read<'a>(
    numbers: &mut [u64],
    text: &[u8],
    chains: &mut [Chain],
    residue_keys: &'a mut [u64],
    residue_names: &'a mut [u64],
    residue_codes: &'a mut [u8],
    residue_categories: &'a mut [u8],
    residue_positions: &'a mut [u8],
    atom_keys: &'a mut [u64],
    atom_names: &'a mut [u64],
    elements: &'a mut [u8],
    positions: &'a mut [[f64; 3]],
    occupancies: &'a mut [f64],
)
    ensures { let l = lent_by (names_at chains) residue_keys residue_names residue_codes residue_categories residue_positions atom_keys atom_names elements positions occupancies in
        let n = held numbers in ReadInto l.entry text.now n.entry n.exit l.exit }
{
    let mut residues = ResiduesMut {
        keys: residue_keys,
        names: residue_names,
        codes: residue_codes,
        categories: residue_categories,
        positions: residue_positions,
    };
    let mut atoms = AtomsMut {
        keys: atom_keys,
        names: atom_names,
        elements,
        positions,
        occupancies,
    };
    let answer = structures::read(text, chains, &mut residues, &mut atoms, rows::assuming());
    put_numbers(numbers, answer);
}
