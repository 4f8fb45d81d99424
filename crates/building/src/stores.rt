// Where the records of one kind stand while rows come: most of them in main, an area at the front of the slices whose gap is where the last one went, and those that come too far from
// it in the pocket behind. A full pocket is emptied into main, in one sweep of its gap, so that no order of rows costs more than a few moves of main's gap.
ghost use Rattle.std.specs.Prelude.{◌≡◌, ℕ, suc, ◌-◌, ◌^◌, ◌≤◌, ◌<◌, ltb};
ghost use Rattle.gapped_slices.specs.Areas.{many, one_more_at};
ghost use Rattle.building.specs.Stores.{no_store, emptied_area, place_of, is_far, earned_with, Lays, InMain, InPocket, Leads, Widened};

use gapped_slices::Area;

// The greatest pocket, and how many moves of main's gap each new entry earns.
const POCKET: usize = 2048;

const EARNED: usize = 16;

#[derive(Clone, Copy)]
pub struct Store {
    pub main: Area,
    pub pocket: Area,
    // So many moves of main's gap were earned and not yet spent.
    pub credit: usize,
}

// Where a new entry goes.
#[derive(Clone, Copy)]
pub enum Way {
    Main,
    Pocket,
    // Into main, once the pocket is emptied.
    Emptied,
}

pub(crate) fn no_store() -> Store
    ensures { result ≡ no_store }
{
    Store {
        main: Area {
            from: 0,
            to: 0,
            front: 0,
            behind: 0,
        },
        pocket: Area {
            from: 0,
            to: 0,
            front: 0,
            behind: 0,
        },
        credit: 0,
    }
}

// ---- areas

pub(crate) fn entries_of(area: Area) -> usize
    ensures { many area < 2 ^ 64 → result ≡ many area }
{
    area.front.saturating_add(area.behind)
}

pub(crate) fn emptied(area: Area) -> Area
    ensures { result ≡ emptied_area area }
{
    Area {
        front: 0,
        behind: 0,
        ..area
    }
}

// With one more at this index, and the gap behind it.
pub(crate) fn with_entry(area: Area, at: usize) -> Area
    ensures { suc (many area) < 2 ^ 64 → at ≤ many area → result ≡ one_more_at area at }
{
    Area {
        front: at.saturating_add(1),
        behind: entries_of(area).saturating_sub(at),
        ..area
    }
}

// Where an entry goes by what a look for it says; the same as one that is there, where there is one.
pub(crate) fn place_of(spot: Result<usize, usize>) -> usize
    ensures { result ≡ place_of spot }
{
    match spot {
        Ok(i) => i,
        Err(i) => i,
    }
}

// ---- the way of a new entry

// Whether an entry at this index of main lies further from its gap than was earned.
fn is_far(store: Store, at: usize) -> bool
    ensures { result ≡ is_far store at }
{
    store.credit < store.main.front.abs_diff(at)
}

// Whether there is room for one more beside so many.
fn has_room(area: Area, n: usize) -> bool
    ensures { result ≡ ltb n (area.to - area.from) }
{
    n < area.to.saturating_sub(area.from)
}

// Main keeps room for all that is in the pocket. An entry near main's gap goes there, another into the pocket, and where neither has room the pocket is emptied first.
pub(crate) fn way_of(store: Store, at: usize) -> Way
    ensures { (room : ℕ) → Lays room store → room < 2 ^ 64 → Leads store result }
{
    let main = store.main;
    let pocket = store.pocket;
    let many = entries_of(pocket);
    if main.to.saturating_sub(entries_of(main)) <= many {
        return Way::Emptied;
    }
    if !is_far(store, at) {
        return Way::Main;
    }
    if has_room(pocket, many) {
        return Way::Pocket;
    }
    Way::Emptied
}

// ---- what is left

// So many moves more, up to the greatest number that there is.
fn earned(credit: usize) -> usize
    ensures { result ≡ earned_with credit }
{
    credit.checked_add(EARNED).unwrap_or(credit)
}

pub(crate) fn in_main(store: Store, at: usize) -> Store
    ensures { suc (many store.main) < 2 ^ 64 → at ≤ many store.main → InMain store at result }
{
    let far = store.main.front.abs_diff(at);
    Store {
        main: with_entry(store.main, at),
        credit: earned(store.credit).saturating_sub(far),
        ..store
    }
}

pub(crate) fn in_pocket(store: Store, at: usize) -> Store
    ensures { suc (many store.pocket) < 2 ^ 64 → at ≤ many store.pocket → InPocket store at result }
{
    Store {
        pocket: with_entry(store.pocket, at),
        credit: earned(store.credit),
        ..store
    }
}

// Once the pocket is empty: where main is full too it gets what is left of the room, but for a smaller pocket.
pub(crate) fn widened(store: Store, room: usize) -> Store
    ensures { Lays room store → many store.pocket ≡ 0 → many store.main < room → Widened room store result }
{
    let main = store.main;
    let n = entries_of(main);
    if n < main.to {
        return store;
    }
    let size = POCKET.min(room.saturating_sub(main.to) / 8);
    let mid = room.saturating_sub(size);
    Store {
        main: Area {
            from: 0,
            to: mid,
            front: n,
            behind: 0,
        },
        pocket: Area {
            from: mid,
            to: room,
            front: 0,
            behind: 0,
        },
        credit: store.credit,
    }
}
