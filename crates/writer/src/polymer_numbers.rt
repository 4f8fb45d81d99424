// The walk over the residues: where it stands, with the residue's number among the polymer residues of its chain.
ghost use Rattle.std.specs.Prelude.{◌≡◌, ◌^◌, ◌+◌, ◌<◌};
ghost use Rattle.model.specs.Lent.{residue_in, lent_in};
ghost use Rattle.writer.specs.PolymerNumbers.{number_after, begun, walked_to};

use field_slices::entry_at;
use model::{Records, Residue, is_polymer};

#[derive(Clone, Copy)]
pub struct Walk {
    pub index: usize,
    // Counted also where the residue is of no polymer: then it is the number of the last one before it.
    pub number: u64,
    pub residue: Residue,
}

// The number of a residue, after one of a number and a chain: each chain starts anew.
#[tactic(auto, unfolding(crate::specs::PolymerNumbers::number_after))]
pub(crate) fn number_after(number: u64, chain: u64, residue: Residue) -> u64
    requires { number + 1 < 2 ^ 64 }
    ensures { result ≡ number_after number chain residue }
{
    let before = if residue.chain == chain { number } else { 0 };
    before + u64::from(is_polymer(residue.code))
}

// In the first residue.
pub(crate) fn begin_walk(records: Records) -> Walk
    ensures { result ≡ begun (residue_in (lent_in records.entry)) }
{
    let residue = records.residue_at(0);
    Walk {
        index: 0,
        number: number_after(0, 0, residue),
        residue,
    }
}

// On to the residue of a key: the same one, or the next.
pub(crate) fn walk_to(records: Records, walk: Walk, key: u64) -> Walk
    requires { (walk.index + 1 < 2 ^ 64) × (walk.number + 1 < 2 ^ 64) }
    ensures { result ≡ walked_to (residue_in (lent_in records.entry)) walk key }
{
    if entry_at(records.residue_keys, walk.index, 0) == key {
        return walk;
    }
    let residue = records.residue_at(walk.index + 1);
    Walk {
        index: walk.index + 1,
        number: number_after(walk.number, walk.residue.chain, residue),
        residue,
    }
}
