// What each residue is, by its name and its atoms: the name that it leads to, its standard code and its category; and the first unknown one.
ghost use Rattle.std.specs.Prelude.{◌≡◌, get_or, take};
ghost use Rattle.model.specs.Classes.{class_of};
ghost use Rattle.model.specs.LentNow.{SameResidues};
ghost use Rattle.finishing.specs.Classing.{is_unknown_by, ClassStored, Classifies};

use building::Counts;
use field_slices::{entry_at, store};
use model::{AtomsMut, Class, ResiduesMut, class_of, is_alone, pass_lesser};

// What residue i is, by the name that stands in its records.
fn class_in(residues: &ResiduesMut<'_>, i: usize, lone: bool) -> Class
    ensures { result ≡ class_of (get_or residues.now.names.now i 0) lone }
{
    class_of(entry_at(residues.names, i, 0), lone)
}

// Neither resolved nor HETATM, whose mark stands where the category will.
fn is_unknown(residues: &ResiduesMut<'_>, i: usize, code: u8) -> bool
    ensures { result ≡ is_unknown_by code (get_or residues.now.categories.now i 0) }
{
    code == 0 && entry_at(residues.categories, i, 0) == 0
}

// What residue i is goes into its records, its category over the HETATM mark; the answer is whether it is unknown.
fn classify_residue(residues: &mut ResiduesMut<'_>, i: usize, lone: bool) -> bool
    ensures same { SameResidues residues.old residues.new }
    ensures value { result ≡ is_unknown_by (class_of (get_or residues.old.names.now i 0) lone).code (get_or residues.old.categories.now i 0) }
    ensures stored { ClassStored (class_of (get_or residues.old.names.now i 0) lone) i residues.old residues.new }
{
    let class = class_in(residues, i, lone);
    let unknown = is_unknown(residues, i, class.code);
    store(residues.names, i, class.name);
    store(residues.codes, i, class.code);
    store(residues.categories, i, class.category);
    unknown
}

fn key_at(residues: &ResiduesMut<'_>, i: usize) -> u64
    ensures { result ≡ get_or residues.now.keys.now i 0 }
{
    entry_at(residues.keys, i, 0)
}

// The place of the first unknown residue, from 1; where each is known, what each is stands in its records. Residues and atoms are in one order,
// so that both are walked once.
pub(crate) fn classify_residues(
    residues: &mut ResiduesMut<'_>,
    atoms: &AtomsMut<'_>,
    counts: Counts,
) -> Option<usize>
    ensures same { SameResidues residues.old residues.new }
    ensures classified { Classifies residues.old (take counts.atoms atoms.now.keys.now) counts.residues result residues.new }
{
    let mut at = 0;
    for i in 0..counts.residues {
        let key = key_at(residues, i);
        at = pass_lesser(atoms.keys, counts.atoms, at, key);
        let lone = is_alone(atoms.keys, counts.atoms, at, key);
        if classify_residue(residues, i, lone) {
            return Some(i + 1);
        }
    }
    None
}
