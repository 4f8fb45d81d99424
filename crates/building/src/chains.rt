// Where a chain stands among those that were met.
ghost use Rattle.std.specs.Prelude.{◌≡◌, ◌+◌, ◌≤◌, length, take, drop};
ghost use Rattle.model.specs.Chains.{chain_place};
ghost use Rattle.building.specs.Slices.{ChainFound};

// The walk over the first n chains, from this one on: by index, as the place is what it gives, in both halves.
fn walk(chains: &[u64], n: usize, from: usize, name: u64) -> usize
    requires { (n ≤ length chains.now) × (from ≤ n) }
    ensures { result ≡ from + chain_place name (drop from (take n chains.now)) }
{
    for i in from..n {
        if chains[i] == name {
            return i;
        }
    }
    n
}

// Where the chain stands among the first n, or all of them where there are fewer; their count where it is not there. The walk begins at
// the last run's chain and then at the first, since chains come one after the other, and often in turn.
pub fn chain_place(chains: &[u64], n: usize, name: u64, last: usize) -> usize
    ensures { ChainFound (take n chains.now) name result }
{
    let count = n.min(chains.len());
    let from = last.min(count);
    let place = walk(chains, count, from, name);
    if place < count {
        return place;
    }
    walk(chains, count, 0, name)
}
