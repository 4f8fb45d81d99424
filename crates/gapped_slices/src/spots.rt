// Where an entry belongs among those of slices with a gap: the gap is moved there before the entry is put in. The entries next to the
// gap are looked at first, so that an entry which comes in order costs one look on each side.
ghost use Rattle.std.specs.Prelude.{◌≡◌, ℕ, ◌+◌, ◌≤◌, ◌<◌, ◌^◌, leb, ltb, length, get_or};
ghost use Rattle.std.specs.Ordering.{nat_cmp, ordering_then};
ghost use Rattle.field_slices.specs.Places.{pairs, below};
ghost use Rattle.gapped_slices.specs.Gaps.{closed, standing};
ghost use Rattle.gapped_slices.specs.Ranks.{OfRanks, FirstLess, Sought};
ghost use Rattle.gapped_slices.specs.Spots.{Spotted};

use std::cmp::Ordering;

// So many entries on a side of the gap are looked at one by one, since most entries belong near it. Those further off are halved: else
// rows that jump from end to end would have all entries looked at for each row.
const STEPS: usize = 8;

// Whether a slice has so many entries before its gap and behind it.
pub(crate) fn is_within(size: usize, front: usize, behind: usize) -> bool
    ensures { result ≡ leb (front + behind) size }
{
    behind <= size && front <= size - behind
}

// ---- among so many entries, of each of which `rank` says how it stands to the one that is looked for

// By halves among the entries up to `to`, of which those before `from` are known to be less. The library's binary searches look at the
// entries of one slice, while these stand on both sides of a gap, and the pairs in two slices.
fn by_halves<F: Fn(usize) -> Ordering>(from: usize, to: usize, rank: &F) -> Result<usize, usize>
    requires range { from ≤ to }
    requires called { (i : ℕ) → i < to → F.pre rank.now i }
    requires less { OfRanks (F.post rank.now) to (λ by. FirstLess by to from) }
    ensures { OfRanks (F.post rank.now) to (λ by. Sought by to result) }
{
    let mut lo = from;
    let mut hi = to;
    while lo < hi {
        let mid = lo + (hi - lo) / 2;
        match rank(mid) {
            Ordering::Less => lo = mid + 1,
            Ordering::Equal => return Ok(mid),
            Ordering::Greater => hi = mid,
        }
    }
    Err(lo)
}

// Among those before the last one before the gap, which was looked at, from there back, and by halves among those that this leaves.
fn back_from<F: Fn(usize) -> Ordering>(front: usize, rank: &F) -> Result<usize, usize>
    requires called { (i : ℕ) → i < front → F.pre rank.now i }
    ensures { OfRanks (F.post rank.now) front (λ by. Sought by front result) }
{
    let stop = front - (STEPS - 1).min(front);
    for i in (stop..front).rev() {
        match rank(i) {
            Ordering::Less => return Err(i + 1),
            Ordering::Equal => return Ok(i),
            Ordering::Greater => {}
        }
    }
    by_halves(0, stop, rank)
}

// From the first one behind the gap on, and by halves among those that this leaves, where those before the gap are known to be less.
fn on_from<F: Fn(usize) -> Ordering>(front: usize, many: usize, rank: &F) -> Result<usize, usize>
    requires range { front ≤ many }
    requires called { (i : ℕ) → i < many → F.pre rank.now i }
    requires less { OfRanks (F.post rank.now) many (λ by. FirstLess by many front) }
    ensures { OfRanks (F.post rank.now) many (λ by. Sought by many result) }
{
    let stop = front + STEPS.min(many - front);
    for i in front..stop {
        match rank(i) {
            Ordering::Less => {}
            Ordering::Equal => return Ok(i),
            Ordering::Greater => return Err(i),
        }
    }
    by_halves(stop, many, rank)
}

// The last one before the gap says on which side of it to look.
fn spot_by<F: Fn(usize) -> Ordering>(front: usize, many: usize, rank: F) -> Result<usize, usize>
    requires range { front ≤ many }
    requires called { (i : ℕ) → i < many → F.pre rank i }
    ensures { OfRanks (F.post rank) many (λ by. Sought by many result) }
{
    if front == 0 {
        return on_from(0, many, &rank);
    }
    match rank(front - 1) {
        Ordering::Less => on_from(front, many, &rank),
        Ordering::Equal => Ok(front - 1),
        Ordering::Greater => back_from(front - 1, &rank),
    }
}

// ---- in slices, each with its own end

// Where the i-th entry stands in a slice with so many entries before the gap.
fn standing(front: usize, gap: usize, i: usize) -> usize
    requires { i + gap < 2 ^ 64 }
    ensures { result ≡ standing front gap i }
{
    if i < front { i } else { i + gap }
}

pub(crate) fn spot_of_key(
    keys: &[u64],
    front: usize,
    behind: usize,
    key: u64,
) -> Result<usize, usize>
    ensures { let k = keys.now in front + behind ≤ length k → Spotted ltb (closed front behind k) key result }
{
    if !is_within(keys.len(), front, behind) {
        return Err(0);
    }
    let gap = keys.len() - behind - front;
    let rank = |i: usize| -> Ordering
        requires { i + gap < length keys.now }
        ensures { result ≡ nat_cmp (get_or keys.entry.now (standing front gap i) 0) key }
    { keys[standing(front, gap, i)].cmp(&key) };
    spot_by(front, front + behind, rank)
}

pub(crate) fn spot_of(
    keys: &[u64],
    names: &[u64],
    front: usize,
    behind: usize,
    key: u64,
    name: u64,
) -> Result<usize, usize>
    ensures { let k = keys.now in let n = names.now in
        front + behind ≤ length k → front + behind ≤ length n → Spotted below (pairs (closed front behind k) (closed front behind n)) (key, name) result }
{
    if !is_within(keys.len(), front, behind) || !is_within(names.len(), front, behind) {
        return Err(0);
    }
    let gap = keys.len() - behind - front;
    let name_gap = names.len() - behind - front;
    let rank = |i: usize| -> Ordering
        requires { (i + gap < length keys.now) × (i + name_gap < length names.now) }
        ensures { result ≡ ordering_then (nat_cmp (get_or keys.entry.now (standing front gap i) 0) key) (nat_cmp (get_or names.entry.now (standing front name_gap i) 0) name) }
    {
        let k = keys[standing(front, gap, i)];
        let m = names[standing(front, name_gap, i)];
        (k, m).cmp(&(key, name))
    };
    spot_by(front, front + behind, rank)
}
