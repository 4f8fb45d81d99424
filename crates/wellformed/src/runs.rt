// Consecutive nonempty runs: each chain has residues, in the order of the chains, and each residue atoms.
ghost use Rattle.std.specs.Prelude.{◌≡◌, ◌+◌, ◌-◌, ◌≤◌, length};
ghost use Rattle.model.specs.Keys.{chain_part};
ghost use Rattle.model.specs.Lent.{lent_in, list_from};
ghost use Rattle.wellformed.specs.Runs.{equals};
ghost use Rattle.wellformed.specs.Slices.{entries, chains_run, residues_run, Within, runs_well};

use model::{Records, Room, chain_part};

// Past those of the first n residues, from an index on, that are of the chain at a place. The index where the run ends is the answer.
fn pass_chain(keys: &[u64], n: usize, from: usize, place: u64) -> usize
    requires { n ≤ length keys.now }
    ensures { result ≡ from + equals place (list_from (λ i. chain_part (entries keys.now i)) from (n - from)) }
{
    let mut i = from;
    while i < n && chain_part(keys[i]) == place {
        i += 1;
    }
    i
}

// Past those of the first n atoms, from an index on, that are of the residue of a key; likewise.
fn pass_residue(keys: &[u64], n: usize, from: usize, key: u64) -> usize
    requires { n ≤ length keys.now }
    ensures { result ≡ from + equals key (list_from (entries keys.now) from (n - from)) }
{
    let mut i = from;
    while i < n && keys[i] == key {
        i += 1;
    }
    i
}

fn chains_run(residue_keys: &[u64], chain_count: usize, residue_count: usize) -> bool
    requires { residue_count ≤ length residue_keys.now }
    ensures { result ≡ chains_run residue_keys.now chain_count residue_count }
{
    let mut from = 0;
    for i in 0..chain_count {
        let next = pass_chain(residue_keys, residue_count, from, i as u64);
        if next == from {
            return false;
        }
        from = next;
    }
    residue_count <= from
}

fn residues_run(
    residue_keys: &[u64],
    atom_keys: &[u64],
    residue_count: usize,
    atom_count: usize,
) -> bool
    requires { (residue_count ≤ length residue_keys.now) × (atom_count ≤ length atom_keys.now) }
    ensures { result ≡ residues_run residue_keys.now atom_keys.now residue_count atom_count }
{
    let mut from = 0;
    for i in 0..residue_count {
        let next = pass_residue(atom_keys, atom_count, from, residue_keys[i]);
        if next == from {
            return false;
        }
        from = next;
    }
    atom_count <= from
}

pub(crate) fn in_runs(records: Records<'_>, counts: Room) -> bool
    requires { Within (lent_in records) counts }
    ensures { result ≡ runs_well (lent_in records.entry) counts }
{
    chains_run(records.residue_keys, counts.chains, counts.residues)
        && residues_run(
            records.residue_keys,
            records.atom_keys,
            counts.residues,
            counts.atoms,
        )
}
