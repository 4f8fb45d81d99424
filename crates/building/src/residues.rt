// The residues in their slices, one to a field, in the two areas of a store. While rows are read the HETATM marks stand where the categories will.
ghost use Rattle.model.specs.Fold.{Residue};
ghost use Rattle.building.specs.Kinds.{residues_now, residue_entry_at, IsResidue, KeepsResidues, ResiduesIn, ResiduesFirst, ResiduesLong, ResiduesSame, ResidueSpotted, PutsResidue};
ghost use Rattle.building.specs.Stores.{Empties, MakesRoom, PutsNew, Gathered};
ghost use Rattle.std.specs.Prelude.{◌≡◌};

use crate::stores::{
    Store, Way, emptied, entries_of, in_main, in_pocket, place_of, way_of, widened, with_entry,
};
use field_slices::entry_at;
use gapped_slices::{Area, move_in, put_in, spot_in_key, stand};
use model::ResiduesMut;

// A residue as its slices have it.
#[derive(Clone, Copy)]
pub(crate) struct ResidueEntry {
    pub key: u64,
    pub name: u64,
    pub mark: u8,
}

// One more in an area, at this index.
fn put_residue(residues: &mut ResiduesMut<'_>, area: Area, at: usize, residue: ResidueEntry)
    ensures same { KeepsResidues residues.old residues.new }
    ensures puts { PutsResidue area at residue (residues_now residues.old) (residues_now residues.new) }
{
    put_in(residues.keys, area, at, residue.key);
    put_in(residues.names, area, at, residue.name);
    put_in(residues.categories, area, at, residue.mark);
}

// The residue at this index of the slices, zero in each field where there is none.
fn residue_at(residues: &ResiduesMut<'_>, at: usize) -> ResidueEntry
    ensures { result ≡ residue_entry_at (residues_now residues.now) at }
{
    ResidueEntry {
        key: entry_at(residues.keys, at, 0),
        name: entry_at(residues.names, at, 0),
        mark: entry_at(residues.categories, at, 0),
    }
}

// Where a residue is in an area, or as an error where it goes.
pub(crate) fn residue_spot(residues: &ResiduesMut<'_>, area: Area, key: u64) -> Result<usize, usize>
    ensures { ResidueSpotted (residues_now residues.now) area key result }
{
    spot_in_key(residues.keys, area, key)
}

// Those of the pocket go over into main in their order, in one sweep of its gap.
fn empty_pocket(residues: &mut ResiduesMut<'_>, store: Store) -> Store
    ensures same { KeepsResidues residues.old residues.new }
    ensures empties { let r = residues_now residues.old in let after = residues_now residues.new in
        Empties (ResiduesSame r after) (ResiduesLong r) (ResiduesIn r) (ResiduesIn after) store result }
{
    let pocket = store.pocket;
    let many = entries_of(pocket);
    let mut main = store.main;
    for k in 0..many {
        let from = stand(pocket, k);
        let residue = residue_at(residues, from);
        let at = place_of(residue_spot(residues, main, residue.key));
        put_residue(residues, main, at, residue);
        main = with_entry(main, at);
    }
    Store {
        main,
        pocket: emptied(pocket),
        ..store
    }
}

// Room in main for one more.
fn make_room(residues: &mut ResiduesMut<'_>, room: usize, store: Store) -> Store
    ensures same { KeepsResidues residues.old residues.new }
    ensures makes { let r = residues_now residues.old in let after = residues_now residues.new in
        MakesRoom (ResiduesSame r after) (ResiduesLong r) (ResiduesIn r) (ResiduesIn after) room store result }
{
    let store = empty_pocket(residues, store);
    widened(store, room)
}

// A new residue; at is its index in main.
pub(crate) fn put_new_residue(
    residues: &mut ResiduesMut<'_>,
    room: usize,
    store: Store,
    at: usize,
    residue: ResidueEntry,
) -> Store
    ensures same { KeepsResidues residues.old residues.new }
    ensures puts { (v : Residue) → IsResidue residue v → let r = residues_now residues.old in let after = residues_now residues.new in
        PutsNew (ResiduesSame r after) (ResiduesLong r) (ResiduesIn r) (ResiduesIn after) room store at residue.key v result }
{
    match way_of(store, at) {
        Way::Main => {
            put_residue(residues, store.main, at, residue);
            in_main(store, at)
        }
        Way::Pocket => {
            let at = place_of(residue_spot(residues, store.pocket, residue.key));
            put_residue(residues, store.pocket, at, residue);
            in_pocket(store, at)
        }
        Way::Emptied => {
            let store = make_room(residues, room, store);
            let at = place_of(residue_spot(residues, store.main, residue.key));
            put_residue(residues, store.main, at, residue);
            in_main(store, at)
        }
    }
}

// All of them to the front.
pub(crate) fn gather_residues(residues: &mut ResiduesMut<'_>, store: Store)
    ensures same { KeepsResidues residues.old residues.new }
    ensures gathered { let r = residues_now residues.old in let after = residues_now residues.new in
        Gathered (ResiduesSame r after) (ResiduesLong r) (ResiduesIn r) (ResiduesFirst after) store }
{
    let store = empty_pocket(residues, store);
    let main = store.main;
    let many = entries_of(main);
    move_in(residues.keys, main, many);
    move_in(residues.names, main, many);
    move_in(residues.categories, main, many);
}
