// Whether records are zero past the counts.
use building::Counts;
use model::{AtomsMut, ResiduesMut};

// Not -0.0, whose reciprocal is negative.
fn is_zero(x: f64) -> bool {
    x == 0.0 && 0.0 < 1.0 / x
}

fn words_are_zero(words: &[u64], from: usize) -> bool {
    words.iter().skip(from).all(|word| *word == 0)
}

fn bytes_are_zero(bytes: &[u8], from: usize) -> bool {
    bytes.iter().skip(from).all(|byte| *byte == 0)
}

fn residues_are_zero(residues: &ResiduesMut<'_>, from: usize) -> bool {
    words_are_zero(residues.keys, from)
        && words_are_zero(residues.names, from)
        && bytes_are_zero(residues.codes, from)
        && bytes_are_zero(residues.categories, from)
        && bytes_are_zero(residues.positions, from)
}

fn atoms_are_zero(atoms: &AtomsMut<'_>, from: usize) -> bool {
    words_are_zero(atoms.keys, from)
        && words_are_zero(atoms.names, from)
        && bytes_are_zero(atoms.elements, from)
        && atoms
            .positions
            .iter()
            .skip(from)
            .all(|point| point.iter().all(|x| is_zero(*x)))
        && atoms.occupancies.iter().skip(from).all(|x| is_zero(*x))
}

pub(crate) fn are_zero(
    chains: &[u64],
    residues: &ResiduesMut<'_>,
    atoms: &AtomsMut<'_>,
    counts: Counts,
) -> bool {
    words_are_zero(chains, counts.chains)
        && residues_are_zero(residues, counts.residues)
        && atoms_are_zero(atoms, counts.atoms)
}
