// The records gathered after the last row: the pockets are emptied and the gaps closed, so that all stand in the front of their slices.
ghost use Rattle.std.specs.Prelude.{List, ℕ};
ghost use Rattle.model.specs.LentNow.{SameAtoms};
ghost use Rattle.building.specs.Holds.{records_now};
ghost use Rattle.building.specs.Gaps.{Gathers};
ghost use Rattle.building.specs.Kinds.{KeepsResidues};

use crate::atoms::gather_atoms;
use crate::held::Held;
use crate::residues::gather_residues;
use model::{AtomsMut, ResiduesMut};

// The chains have neither.
pub fn gather(residues: &mut ResiduesMut<'_>, atoms: &mut AtomsMut<'_>, held: Held)
    ensures same { KeepsResidues residues.old residues.new }
    ensures same_atoms { SameAtoms atoms.old atoms.new }
    ensures gathers { (chains : List ℕ) → Gathers (records_now chains residues.old atoms.old) held (records_now chains residues.new atoms.new) }
{
    gather_residues(residues, held.residues);
    gather_atoms(atoms, held.atoms);
}
