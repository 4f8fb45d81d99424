// Where a record stands in the slices that was met before, or as an error, where it is new, its index among the entries of main: a look in
// main, and where it is not there in the pocket, which is nearly always empty.
ghost use Rattle.building.specs.Kinds.{residues_now, ResidueSought, atoms_now, AtomSought};

use crate::atoms::atom_spot;
use crate::residues::residue_spot;
use crate::stores::{Store, entries_of};
use gapped_slices::stand;
use model::{AtomsMut, ResiduesMut};

pub(crate) fn seek_residue(
    residues: &ResiduesMut<'_>,
    store: Store,
    key: u64,
) -> Result<usize, usize>
    ensures { ResidueSought (residues_now residues.now) store key result }
{
    let main = store.main;
    let pocket = store.pocket;
    match residue_spot(residues, main, key) {
        Ok(i) => Ok(stand(main, i)),
        Err(at) => {
            if entries_of(pocket) == 0 {
                return Err(at);
            }
            match residue_spot(residues, pocket, key) {
                Ok(i) => Ok(stand(pocket, i)),
                Err(_) => Err(at),
            }
        }
    }
}

pub(crate) fn seek_atom(
    atoms: &AtomsMut<'_>,
    store: Store,
    key: u64,
    name: u64,
) -> Result<usize, usize>
    ensures { AtomSought (atoms_now atoms.now) store key name result }
{
    let main = store.main;
    let pocket = store.pocket;
    match atom_spot(atoms, main, key, name) {
        Ok(i) => Ok(stand(main, i)),
        Err(at) => {
            if entries_of(pocket) == 0 {
                return Err(at);
            }
            match atom_spot(atoms, pocket, key, name) {
                Ok(i) => Ok(stand(pocket, i)),
                Err(_) => Err(at),
            }
        }
    }
}
