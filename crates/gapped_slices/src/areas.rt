// Areas of slices: several share a slice, each with a gap of its own, and what is done in one leaves the others as they are. Where
// there is no such area in a slice nothing changes.
ghost use Rattle.std.specs.Prelude.{true, false, ◌≡◌, ℕ, ◌<◌, ltb, length};
ghost use Rattle.field_slices.specs.Places.{pairs, below};
ghost use Rattle.gapped_slices.specs.Areas.{Lies, MovedIn, PutsIn, entries_in, many, stand_of};
ghost use Rattle.gapped_slices.specs.Spots.{Spotted};

use crate::gaps::{move_gap, put};
use crate::spots::{is_within, spot_of, spot_of_key};

// A part of some slices, from an index up to another, with a gap of its own: so many entries before it, from the part's start, and so
// many behind it, up to the part's end.
#[derive(Clone, Copy)]
pub struct Area {
    pub from: usize,
    pub to: usize,
    pub front: usize,
    pub behind: usize,
}

// Whether the area is in a slice of this size, and has room for its entries.
fn is_area(size: usize, area: Area) -> bool
    ensures { (result ≡ true → Lies area size) × (result ≡ false → Lies area size → ⊥) }
{
    area.from <= area.to
        && area.to <= size
        && is_within(area.to - area.from, area.front, area.behind)
}

// Where the i-th entry of an area stands in its slices. Where there is none, some index: each caller has an entry there, and would have a None
// to make an index of.
#[tactic(auto, using(crate::proofs::AreaLaws::stand_before, crate::proofs::AreaLaws::stand_behind))]
pub fn stand(area: Area, i: usize) -> usize
    ensures { (size : ℕ) → Lies area size → i < many area → result ≡ stand_of area i }
{
    if is_area(area.to, area) {
        if i < area.front {
            return area.from + i;
        }
        let over = i - area.front;
        if over < area.behind {
            return area.to - (area.behind - over);
        }
    }
    0
}

// The gap moved, so that `front` entries come before it.
pub fn move_in<T: Copy>(slice: &mut [T], area: Area, front: usize)
    ensures { MovedIn area front slice.old slice.new }
{
    if is_area(slice.len(), area) {
        let part = &mut slice[area.from..area.to];
        move_gap(part, area.front, area.behind, front);
    }
}

// v put in as a new entry before the one at index `at`, where the area has room for one more.
pub fn put_in<T: Copy>(slice: &mut [T], area: Area, at: usize, v: T)
    ensures { PutsIn area at v slice.old slice.new }
{
    if is_area(slice.len(), area) {
        let part = &mut slice[area.from..area.to];
        put(part, area.front, area.behind, at, v);
    }
}

// ---- where an entry belongs among those of an area: Ok of its index where it is there, and Err of the one before which it goes where it is new

#[tactic(auto, using(crate::proofs::AreaLaws::has_entries), unfolding(crate::specs::Areas::entries_in))]
pub fn spot_in_key(keys: &[u64], area: Area, key: u64) -> Result<usize, usize>
    ensures { let k = keys.now in Lies area (length k) → Spotted ltb (entries_in area k) key result }
{
    if !is_area(keys.len(), area) {
        return Err(0);
    }
    let keys = &keys[area.from..area.to];
    spot_of_key(keys, area.front, area.behind, key)
}

#[tactic(auto, using(crate::proofs::AreaLaws::has_entries), unfolding(crate::specs::Areas::entries_in))]
pub fn spot_in(keys: &[u64], names: &[u64], area: Area, key: u64, name: u64) -> Result<usize, usize>
    ensures { let k = keys.now in let n = names.now in
        Lies area (length k) → Lies area (length n) → Spotted below (pairs (entries_in area k) (entries_in area n)) (key, name) result }
{
    if !is_area(keys.len().min(names.len()), area) {
        return Err(0);
    }
    let keys = &keys[area.from..area.to];
    let names = &names[area.from..area.to];
    spot_of(keys, names, area.front, area.behind, key, name)
}
