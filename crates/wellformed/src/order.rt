// Residues ascend by their keys, atoms by their residues' keys and then by their names.
ghost use Rattle.std.specs.Prelude.{◌≡◌, ◌≤◌, ltb, length};
ghost use Rattle.model.specs.Keys.{atom_place};
ghost use Rattle.model.specs.Lent.{lent_in};
ghost use Rattle.wellformed.specs.Slices.{residues_ascend, atoms_ascend, Within, order_well};

use model::{Records, Room};

fn residues_ascend(keys: &[u64], n: usize) -> bool
    requires { n ≤ length keys.now }
    ensures { result ≡ residues_ascend keys.now n }
{
    for i in 1..n {
        if keys[i] <= keys[i - 1] {
            return false;
        }
    }
    true
}

// Whether an atom, by its residue's key and its name, comes before the next.
fn is_before(key: u64, name: u64, next_key: u64, next_name: u64) -> bool
    ensures { result ≡ ltb (atom_place key name) (atom_place next_key next_name) }
{
    (key, name) < (next_key, next_name)
}

fn atoms_ascend(keys: &[u64], names: &[u64], n: usize) -> bool
    requires { (n ≤ length keys.now) × (n ≤ length names.now) }
    ensures { result ≡ atoms_ascend keys.now names.now n }
{
    for i in 1..n {
        if !is_before(keys[i - 1], names[i - 1], keys[i], names[i]) {
            return false;
        }
    }
    true
}

pub(crate) fn in_order(records: Records<'_>, counts: Room) -> bool
    requires { Within (lent_in records) counts }
    ensures { result ≡ order_well (lent_in records.entry) counts }
{
    residues_ascend(records.residue_keys, counts.residues)
        && atoms_ascend(records.atom_keys, records.atom_names, counts.atoms)
}
