// The place of a chain's record, found or appended in the records themselves, and the records past the last chain.
ghost use Rattle.std.specs.Prelude.{◌≡◌, take, set};
ghost use Rattle.building.specs.Slices.{ChainFound};
ghost use Rattle.field_slices.specs.Clearing.{cleared};
ghost use Rattle.chains.specs.Names.{chain_of, names_in};
ghost use Rattle.chains.specs.Places.{round_at};

use crate::chain::Chain;
use field_slices::store;

// The k-th place of a search among so many that begins at `first` and goes round; k where there is none.
fn round(k: usize, first: usize, many: usize) -> usize
    ensures { result ≡ round_at many first k }
{
    let ahead = many - first.min(many);
    if many <= k {
        k
    } else if k < ahead {
        first + k
    } else {
        k - ahead
    }
}

// The place of the name among the first so many records, or their count. The search begins at the last run's chain, since chains come
// one after the other, and often in turn.
fn found_in(chains: &[Chain], many: usize, name: u64, last: usize) -> usize
    ensures { ChainFound (take many (names_in chains.now)) name result }
{
    let count = many.min(chains.len());
    for k in 0..count {
        let i = round(k, last, count);
        if chains[i].name == name {
            return i;
        }
    }
    count
}

// The record at the name's place gets the name, where there is one.
pub fn place_in(chains: &mut [Chain], many: usize, name: u64, last: usize) -> usize
    ensures { ChainFound (take many (names_in chains.old)) name result × (chains.new ≡ set chains.old result (chain_of name)) }
{
    let place = found_in(chains, many, name, last);
    store(chains, place, Chain { name });
    place
}

// The records from this one on get the name 0.
pub fn clear_from(chains: &mut [Chain], count: usize)
    ensures { names_in chains.new ≡ cleared 0 count (names_in chains.old) }
{
    field_slices::clear_from(chains, count, Chain { name: 0 });
}
