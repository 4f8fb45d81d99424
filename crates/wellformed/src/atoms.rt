// The atoms: names, elements and coordinates.
ghost use Rattle.std.specs.Prelude.{◌≡◌, ◌≤◌, length};
ghost use Rattle.wellformed.specs.Slices.{is_atom_well, atoms_well};

use crate::fields::{is_name, is_near};
use model::Records;

fn is_atom_well(name: u64, element: u8, position: [f64; 3]) -> bool
    ensures { result ≡ is_atom_well name element position }
{
    is_name(name) && element <= 118 && is_near(position)
}

// A field stands in a slice of its own, so an index goes over all of them.
pub(crate) fn are_atoms_well(records: Records<'_>, n: usize) -> bool
    requires { (n ≤ length records.atom_names.now) × (n ≤ length records.elements.now) × (n ≤ length records.positions.now) }
    ensures { result ≡ atoms_well records.entry.atom_names.now records.entry.elements.now records.entry.positions.now n }
{
    for i in 0..n {
        let position = records.positions[i];
        if !is_atom_well(records.atom_names[i], records.elements[i], position) {
            return false;
        }
    }
    true
}
