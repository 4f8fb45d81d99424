// A site put into the records: its residue and its atom at its chain's place, where there is room for what is new of them.
ghost use Rattle.std.specs.Prelude.{◌≡◌, List, ℕ, take, set};
ghost use Rattle.model.specs.Fold.{first, greater};
ghost use Rattle.model.specs.Keys.{atom_place};
ghost use Rattle.model.specs.Lent.{coordinates};
ghost use Rattle.model.specs.LentNow.{SameAtoms};
ghost use Rattle.building.specs.Holds.{records_now, sizes_of, SameLengths};
ghost use Rattle.building.specs.Kinds.{residues_now, KeepsResidues, ResiduesIn, ResiduesLong, ResiduesSame, atoms_now, AtomsIn, AtomsLong, AtomsSame};
ghost use Rattle.building.specs.Sites.{SoughtFor, lack_of, residue_entry, atom_entry, one_more, counts_with, with_skipped, Did};
ghost use Rattle.building.specs.Slices.{ChainFound};
ghost use Rattle.building.specs.Stores.{Puts};

use crate::atoms::{AtomEntry, put_new_atom, replace_atom};
use crate::held::Held;
use crate::residues::{ResidueEntry, put_new_residue};
use crate::room::has_no_room;
use crate::seeking::{seek_atom, seek_residue};
use crate::stores::Store;
use model::{AtomsMut, ResiduesMut, Room, residue_key};
use refusals::RecordKind;
use rows::{Point3, Site};

#[derive(Clone, Copy)]
pub struct Counts {
    pub chains: usize,
    pub residues: usize,
    pub atoms: usize,
    pub rows: usize,
    pub skipped: usize,
    pub outdone: usize,
    pub assumed: usize,
}

// How many records of each kind.
pub fn sizes_of(counts: Counts) -> Room
    ensures { result ≡ sizes_of counts }
{
    Room {
        chains: counts.chains,
        residues: counts.residues,
        atoms: counts.atoms,
    }
}

// Where a site goes: the chain's place, the residue's key, and where residue and atom stand, or as an error go in main where they are new.
#[derive(Clone, Copy)]
pub struct Places {
    pub chain: usize,
    pub key: u64,
    pub residue: Result<usize, usize>,
    pub atom: Result<usize, usize>,
}

// ---- where it goes

fn places_of(
    residues: &ResiduesMut<'_>,
    atoms: &AtomsMut<'_>,
    held: Held,
    place: usize,
    site: Site,
) -> Places
    ensures { SoughtFor (residues_now residues.now) (atoms_now atoms.now) held place site result }
{
    let key = residue_key(place, site.sequence, site.insertion_code);
    Places {
        chain: place,
        key,
        residue: seek_residue(residues, held.residues, key),
        atom: seek_atom(atoms, held.atoms, key, site.atom),
    }
}

// ---- whether there is room

fn lack_of(room: Room, counts: Counts, places: Places) -> Option<RecordKind>
    ensures { result ≡ lack_of room counts places }
{
    if has_no_room(counts.chains <= places.chain, room.chains, counts.chains) {
        return Some(RecordKind::Chain);
    }
    if has_no_room(places.residue.is_err(), room.residues, counts.residues) {
        return Some(RecordKind::Residue);
    }
    if has_no_room(places.atom.is_err(), room.atoms, counts.atoms) {
        return Some(RecordKind::Atom);
    }
    None
}

// ---- what it leaves

// What a site says of its residue, whose key it is: the HETATM mark as a number.
fn residue_entry(key: u64, site: Site) -> ResidueEntry
    ensures { result ≡ residue_entry key site }
{
    ResidueEntry {
        key,
        name: site.residue,
        mark: site.hetatm as u8,
    }
}

fn point_of(p: Point3) -> [f64; 3]
    ensures { result ≡ coordinates p }
{
    [p.x, p.y, p.z]
}

// What a site says of its atom.
fn atom_entry(key: u64, site: Site) -> AtomEntry
    ensures { result ≡ atom_entry key site }
{
    AtomEntry {
        key,
        name: site.atom,
        element: site.element,
        position: point_of(site.position),
        occupancy: site.occupancy,
    }
}

// One more where that is so, up to the greatest number that there is.
fn one_more(more: bool, n: usize) -> usize
    ensures { result ≡ one_more more n }
{
    n.saturating_add(more as usize)
}

fn counts_with(counts: Counts, places: Places, assumed: bool) -> Counts
    ensures { result ≡ counts_with counts places assumed }
{
    Counts {
        chains: one_more(counts.chains <= places.chain, counts.chains),
        residues: one_more(places.residue.is_err(), counts.residues),
        atoms: one_more(places.atom.is_err(), counts.atoms),
        rows: one_more(true, counts.rows),
        skipped: counts.skipped,
        outdone: one_more(places.atom.is_ok(), counts.outdone),
        assumed: one_more(assumed, counts.assumed),
    }
}

// A skipped row makes nothing.
pub fn skip_row(held: Held) -> Held
    ensures { result ≡ with_skipped held }
{
    let counts = held.counts;
    Held {
        counts: Counts {
            rows: one_more(true, counts.rows),
            skipped: one_more(true, counts.skipped),
            ..counts
        },
        ..held
    }
}

// A residue that was met before keeps what its first row said.
fn store_residue(
    residues: &mut ResiduesMut<'_>,
    room: usize,
    store: Store,
    places: Places,
    site: Site,
) -> Store
    ensures same { KeepsResidues residues.old residues.new }
    ensures puts { let r = residues_now residues.old in let after = residues_now residues.new in
        Puts (ResiduesSame r after) (ResiduesLong r) (ResiduesIn r) (ResiduesIn after) room store places.residue places.key (first site) result }
{
    match places.residue {
        Ok(_) => store,
        Err(at) => put_new_residue(residues, room, store, at, residue_entry(places.key, site)),
    }
}

// An atom that was met before is replaced only by one with a strictly greater occupancy.
fn store_atom(
    atoms: &mut AtomsMut<'_>,
    room: usize,
    store: Store,
    places: Places,
    site: Site,
) -> Store
    ensures same { SameAtoms atoms.old atoms.new }
    ensures puts { let r = atoms_now atoms.old in let after = atoms_now atoms.new in
        Puts (AtomsSame r after) (AtomsLong r) (AtomsIn r) (AtomsIn after) room store places.atom (atom_place places.key site.atom) (greater site) result }
{
    let atom = atom_entry(places.key, site);
    match places.atom {
        Ok(at) => {
            replace_atom(atoms, at, atom);
            store
        }
        Err(at) => put_new_atom(atoms, room, store, at, atom),
    }
}

// Step 8: room for the chain, then the residue, then the atom; then residue and atom are put in. The site's chain stands at this place of the
// chain list, which is its end where the chain is new; the list gets the name there from whoever holds it. The error is what has no room, and then
// residues and atoms are as they were.
pub fn put_site(
    residues: &mut ResiduesMut<'_>,
    atoms: &mut AtomsMut<'_>,
    room: Room,
    held: Held,
    place: usize,
    site: Site,
) -> Result<Held, RecordKind>
    ensures same { KeepsResidues residues.old residues.new }
    ensures same_atoms { SameAtoms atoms.old atoms.new }
    ensures lengths { (chains : List ℕ) → SameLengths (records_now chains residues.old atoms.old) (records_now chains residues.new atoms.new) }
    ensures did { (chains : List ℕ) → ChainFound (take held.counts.chains chains) site.chain place →
        Did (records_now chains residues.old atoms.old) room held site result (records_now (set chains place site.chain) residues.new atoms.new) }
{
    let places = places_of(residues, atoms, held, place, site);
    let counts = held.counts;
    if let Some(kind) = lack_of(room, counts, places) {
        return Err(kind);
    }
    Ok(Held {
        counts: counts_with(counts, places, site.assumed),
        residues: store_residue(residues, room.residues, held.residues, places, site),
        atoms: store_atom(atoms, room.atoms, held.atoms, places, site),
    })
}
