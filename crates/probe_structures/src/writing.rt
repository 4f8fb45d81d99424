// The writer through C conventions: what it answers in three numbers, and the text in the buffer.
ghost use Rattle.std.specs.Prelude.{◌≡◌};
ghost use Rattle.std.proofs.lemmas.List.Edits.{sets};
ghost use Rattle.chains.specs.Names.{names_in};
ghost use Rattle.field_slices.specs.Slice.{held};
ghost use Rattle.model.specs.Lent.{lent_of};
ghost use Rattle.probe_structures.specs.Writings.{number_in, detail_in, written_in, numbers_of, WrittenInto};

use chains::Chain;
use field_slices::store;
use refusals::Reason;

fn number_in(answer: Result<usize, Reason>) -> u8
    ensures { result ≡ number_in answer }
{
    match answer {
        Ok(_) => 0,
        Err(why) => why.number(),
    }
}

fn detail_in(answer: Result<usize, Reason>) -> usize
    ensures { result ≡ detail_in answer }
{
    match answer {
        Ok(_) => 0,
        Err(why) => why.detail(),
    }
}

fn written_in(answer: Result<usize, Reason>) -> usize
    ensures { result ≡ written_in answer }
{
    match answer {
        Ok(n) => n,
        Err(_) => 0,
    }
}

fn put_numbers(numbers: &mut [u64], answer: Result<usize, Reason>)
    ensures { numbers.new ≡ sets numbers.old 0 (numbers_of answer) }
{
    store(numbers, 0, number_in(answer) as u64);
    store(numbers, 1, detail_in(answer) as u64);
    store(numbers, 2, written_in(answer) as u64);
}

// Number and detail of a refusal, and how many bytes were written; zeros for what there is none of.
#[unsafe(no_mangle)]
pub extern "C" fn probe_write(
    numbers: &mut [u64],
    chains: &[Chain],
    residue_keys: &[u64],
    residue_names: &[u64],
    residue_codes: &[u8],
    residue_categories: &[u8],
    residue_positions: &[u8],
    atom_keys: &[u64],
    atom_names: &[u64],
    elements: &[u8],
    positions: &[[f64; 3]],
    occupancies: &[f64],
    chain_count: usize,
    residue_count: usize,
    atom_count: usize,
    out: &mut [u8],
)
    ensures { let l = lent_of (names_in chains.now) residue_keys.now residue_names.now residue_codes.now residue_categories.now residue_positions.now
        atom_keys.now atom_names.now elements.now positions.now occupancies.now in
        let o = held out in let n = held numbers in WrittenInto l chain_count residue_count atom_count o.entry n.entry o.exit n.exit }
{
    let answer = structures::write_structure(
        chains,
        residue_keys,
        residue_names,
        residue_codes,
        residue_categories,
        residue_positions,
        atom_keys,
        atom_names,
        elements,
        positions,
        occupancies,
        chain_count,
        residue_count,
        atom_count,
        out,
    );
    put_numbers(numbers, answer);
}
