// Every record zero from its count on.
ghost use Rattle.std.specs.Prelude.{List, ◌≡◌, ℕ};
ghost use Rattle.field_slices.specs.Clearing.{cleared};
ghost use Rattle.model.specs.LentNow.{lent_now, SameResidues, SameAtoms};
ghost use Rattle.finishing.specs.Clearing.{cleared_from};

use field_slices::clear_from;
use model::{AtomsMut, ResiduesMut, Room};

// Whoever holds the chains clears them.
pub fn clear_records(residues: &mut ResiduesMut<'_>, atoms: &mut AtomsMut<'_>, kept: Room)
    ensures same_residues { SameResidues residues.old residues.new }
    ensures same_atoms { SameAtoms atoms.old atoms.new }
    ensures zeros { (names : List ℕ) →
        lent_now (cleared 0 kept.chains names) residues.new atoms.new ≡ cleared_from (lent_now names residues.old atoms.old) kept }
{
    clear_from(residues.keys, kept.residues, 0);
    clear_from(residues.names, kept.residues, 0);
    clear_from(residues.codes, kept.residues, 0);
    clear_from(residues.categories, kept.residues, 0);
    clear_from(residues.positions, kept.residues, 0);
    clear_from(atoms.keys, kept.atoms, 0);
    clear_from(atoms.names, kept.atoms, 0);
    clear_from(atoms.elements, kept.atoms, 0);
    clear_from(atoms.positions, kept.atoms, [0.0; 3]);
    clear_from(atoms.occupancies, kept.atoms, 0.0);
}
