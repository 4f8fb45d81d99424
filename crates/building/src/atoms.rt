// The atoms in their slices, one to a field, in the two areas of a store. The residues have functions that are alike: one trait for both would say each
// contract through seven ghost members and their laws, which reads no plainer than a few short functions twice.
ghost use Rattle.model.specs.Fold.{Atom};
ghost use Rattle.model.specs.Keys.{atom_place};
ghost use Rattle.model.specs.LentNow.{SameAtoms};
ghost use Rattle.building.specs.Kinds.{atoms_now, atom_entry_at, IsAtom, AtomsIn, AtomsFirst, AtomsLong, AtomsSame, AtomSpotted, PutsAtom, ReplacesAtom};
ghost use Rattle.building.specs.Stores.{Empties, MakesRoom, PutsNew, Gathered};
ghost use Rattle.std.specs.Prelude.{◌≡◌, get_or};
ghost use Rattle.std.specs.Float.Ieee.{lt};
ghost use Rattle.std.specs.Float.{nan};

use crate::stores::{
    Store, Way, emptied, entries_of, in_main, in_pocket, place_of, way_of, widened, with_entry,
};
use field_slices::{entry_at, store};
use gapped_slices::{Area, move_in, put_in, spot_in, stand};
use model::AtomsMut;

// An atom as its slices have it.
#[derive(Clone, Copy)]
pub(crate) struct AtomEntry {
    pub key: u64,
    pub name: u64,
    pub element: u8,
    pub position: [f64; 3],
    pub occupancy: f64,
}

// One more in an area, at this index.
fn put_atom(atoms: &mut AtomsMut<'_>, area: Area, at: usize, atom: AtomEntry)
    ensures same { SameAtoms atoms.old atoms.new }
    ensures puts { PutsAtom area at atom (atoms_now atoms.old) (atoms_now atoms.new) }
{
    put_in(atoms.keys, area, at, atom.key);
    put_in(atoms.names, area, at, atom.name);
    put_in(atoms.elements, area, at, atom.element);
    put_in(atoms.positions, area, at, atom.position);
    put_in(atoms.occupancies, area, at, atom.occupancy);
}

// The atom at this index of the slices, zero in each field where there is none.
fn atom_at(atoms: &AtomsMut<'_>, at: usize) -> AtomEntry
    ensures { result ≡ atom_entry_at (atoms_now atoms.now) at }
{
    AtomEntry {
        key: entry_at(atoms.keys, at, 0),
        name: entry_at(atoms.names, at, 0),
        element: entry_at(atoms.elements, at, 0),
        position: entry_at(atoms.positions, at, [0.0; 3]),
        occupancy: entry_at(atoms.occupancies, at, 0.0),
    }
}

// Where an atom is in an area, or as an error where it goes.
pub(crate) fn atom_spot(
    atoms: &AtomsMut<'_>,
    area: Area,
    key: u64,
    name: u64,
) -> Result<usize, usize>
    ensures { AtomSpotted (atoms_now atoms.now) area key name result }
{
    spot_in(atoms.keys, atoms.names, area, key, name)
}

// Those of the pocket go over into main in their order, in one sweep of its gap.
fn empty_pocket(atoms: &mut AtomsMut<'_>, store: Store) -> Store
    ensures same { SameAtoms atoms.old atoms.new }
    ensures empties { let r = atoms_now atoms.old in let after = atoms_now atoms.new in
        Empties (AtomsSame r after) (AtomsLong r) (AtomsIn r) (AtomsIn after) store result }
{
    let pocket = store.pocket;
    let many = entries_of(pocket);
    let mut main = store.main;
    for k in 0..many {
        let from = stand(pocket, k);
        let atom = atom_at(atoms, from);
        let at = place_of(atom_spot(atoms, main, atom.key, atom.name));
        put_atom(atoms, main, at, atom);
        main = with_entry(main, at);
    }
    Store {
        main,
        pocket: emptied(pocket),
        ..store
    }
}

// Room in main for one more.
fn make_room(atoms: &mut AtomsMut<'_>, room: usize, store: Store) -> Store
    ensures same { SameAtoms atoms.old atoms.new }
    ensures makes { let r = atoms_now atoms.old in let after = atoms_now atoms.new in
        MakesRoom (AtomsSame r after) (AtomsLong r) (AtomsIn r) (AtomsIn after) room store result }
{
    let store = empty_pocket(atoms, store);
    widened(store, room)
}

// A new atom; at is its index in main.
pub(crate) fn put_new_atom(
    atoms: &mut AtomsMut<'_>,
    room: usize,
    store: Store,
    at: usize,
    atom: AtomEntry,
) -> Store
    ensures same { SameAtoms atoms.old atoms.new }
    ensures puts { (v : Atom) → IsAtom atom v → let r = atoms_now atoms.old in let after = atoms_now atoms.new in
        PutsNew (AtomsSame r after) (AtomsLong r) (AtomsIn r) (AtomsIn after) room store at (atom_place atom.key atom.name) v result }
{
    match way_of(store, at) {
        Way::Main => {
            put_atom(atoms, store.main, at, atom);
            in_main(store, at)
        }
        Way::Pocket => {
            let at = place_of(atom_spot(atoms, store.pocket, atom.key, atom.name));
            put_atom(atoms, store.pocket, at, atom);
            in_pocket(store, at)
        }
        Way::Emptied => {
            let store = make_room(atoms, room, store);
            let at = place_of(atom_spot(atoms, store.main, atom.key, atom.name));
            put_atom(atoms, store.main, at, atom);
            in_main(store, at)
        }
    }
}

// Whether the occupancy at this index is less than another; not where there is none.
fn is_less_at(atoms: &AtomsMut<'_>, at: usize, occupancy: f64) -> bool
    ensures { result ≡ lt (get_or atoms.now.occupancies.now at nan) occupancy }
{
    entry_at(atoms.occupancies, at, f64::NAN) < occupancy
}

// The atom that stands at this index of the slices is replaced where its occupancy is strictly less.
pub(crate) fn replace_atom(atoms: &mut AtomsMut<'_>, at: usize, atom: AtomEntry)
    ensures same { SameAtoms atoms.old atoms.new }
    ensures replaces { ReplacesAtom at atom (atoms_now atoms.old) (atoms_now atoms.new) }
{
    if !is_less_at(atoms, at, atom.occupancy) {
        return;
    }
    store(atoms.elements, at, atom.element);
    store(atoms.positions, at, atom.position);
    store(atoms.occupancies, at, atom.occupancy);
}

// All of them to the front.
pub(crate) fn gather_atoms(atoms: &mut AtomsMut<'_>, store: Store)
    ensures same { SameAtoms atoms.old atoms.new }
    ensures gathered { let r = atoms_now atoms.old in let after = atoms_now atoms.new in
        Gathered (AtomsSame r after) (AtomsLong r) (AtomsIn r) (AtomsFirst after) store }
{
    let store = empty_pocket(atoms, store);
    let main = store.main;
    let many = entries_of(main);
    move_in(atoms.keys, main, many);
    move_in(atoms.names, main, many);
    move_in(atoms.elements, main, many);
    move_in(atoms.positions, main, many);
    move_in(atoms.occupancies, main, many);
}
