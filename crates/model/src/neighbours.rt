// What a walk over slices in order sees from where it stands, so that each slice is walked once.
ghost use Rattle.std.specs.Prelude.{◌≡◌, ◌+◌, drop, take};
ghost use Rattle.field_slices.specs.Places.{pairs};
ghost use Rattle.model.specs.Neighbours.{lessers, alone_in, met_with, ends_chain, position_between};

use crate::keys::chain_part;
use crate::termini::{is_polymer, position_of};

// Past those of the first n that are less than key, from an index on. Each walk begins where the last one ended, so no iterator is kept.
pub fn pass_lesser(keys: &[u64], n: usize, from: usize, key: u64) -> usize
    ensures { result ≡ from + lessers key (drop from (take n keys.now)) }
{
    let count = n.min(keys.len());
    for i in from..count {
        if key <= keys[i] {
            return i;
        }
    }
    from.max(count)
}

// Whether the entry behind the one at index at, among the first n, is of another key.
pub fn is_alone(keys: &[u64], n: usize, at: usize, key: u64) -> bool
    ensures { result ≡ alone_in key (drop at (take n keys.now)) }
{
    let count = n.min(keys.len());
    count.saturating_sub(at) < 2 || keys[at + 1] != key
}

// The chain, from 1, of the last Standard non-HOH residue that was met, this one included; 0 where none was. 0 is below every chain, so that what was
// met ascends with the residues, by which the laws tell the first of a chain: an Option would need an order of its own there.
pub fn met_with(met: u64, key: u64, code: u8) -> u64
    ensures { result ≡ met_with met key code }
{
    if is_polymer(code) {
        chain_part(key) + 1
    } else {
        met
    }
}

// Whether the next Standard non-HOH residue among the first n, from an index on, is of another chain, or there is none.
fn ends_chain(keys: &[u64], codes: &[u8], n: usize, from: usize, place: u64) -> bool
    ensures { result ≡ ends_chain place (drop from (take n (pairs keys.now codes.now))) }
{
    let count = n.min(keys.len().min(codes.len()));
    for i in from..count {
        if is_polymer(codes[i]) {
            return chain_part(keys[i]) != place;
        }
    }
    true
}

// The position of a residue, by the chain, from 1, of the last Standard non-HOH residue before it, and the residues from index next on. Only such a
// residue looks ahead, and no further than the next one, so that all of them together look at each residue once.
pub fn position_between(
    keys: &[u64],
    codes: &[u8],
    n: usize,
    next: usize,
    key: u64,
    code: u8,
    met: u64,
) -> u8
    ensures { result ≡ position_between met key code (drop next (take n (pairs keys.now codes.now))) }
{
    if !is_polymer(code) {
        return position_of(code, false, false);
    }
    let chain = chain_part(key);
    let last = ends_chain(keys, codes, n, next, chain);
    position_of(code, met != chain + 1, last)
}
