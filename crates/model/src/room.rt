// The room for chains, residues and atoms: the sizes of document 01, and no more than the shortest slice has.
ghost use Rattle.std.specs.Prelude.{◌≡◌, min};
ghost use Rattle.model.specs.Lent.{room_by, no_records};

// The sizes: so many of each at most.
const CHAINS: usize = 4096;

const RESIDUES: usize = 65536;

const ATOMS: usize = 1048576;

#[derive(Clone, Copy)]
pub struct Room {
    pub chains: usize,
    pub residues: usize,
    pub atoms: usize,
}

pub fn no_records() -> Room
    ensures { result ≡ no_records }
{
    Room {
        chains: 0,
        residues: 0,
        atoms: 0,
    }
}

fn smallest(a: usize, b: usize, c: usize, d: usize, e: usize) -> usize
    ensures { result ≡ min a (min b (min c (min d e))) }
{
    a.min(b.min(c.min(d.min(e))))
}

// By the lengths of the slices, for a caller that does not lend them for it: each is lent by itself, so no struct has them.
pub fn room_by(
    chains: usize,
    residue_keys: usize,
    residue_names: usize,
    residue_codes: usize,
    residue_categories: usize,
    residue_positions: usize,
    atom_keys: usize,
    atom_names: usize,
    elements: usize,
    positions: usize,
    occupancies: usize,
) -> Room
    ensures { result ≡ room_by chains residue_keys residue_names residue_codes residue_categories residue_positions atom_keys atom_names elements positions occupancies }
{
    let residues = smallest(
        residue_keys,
        residue_names,
        residue_codes,
        residue_categories,
        residue_positions,
    );
    let atoms = smallest(atom_keys, atom_names, elements, positions, occupancies);
    Room {
        chains: CHAINS.min(chains),
        residues: RESIDUES.min(residues),
        atoms: ATOMS.min(atoms),
    }
}
