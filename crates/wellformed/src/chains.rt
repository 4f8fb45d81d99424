// The chains: names that differ, none of them `.`.
ghost use Rattle.std.specs.Prelude.{◌≡◌};
ghost use Rattle.ascii.specs.Lists.{every};
ghost use Rattle.model.specs.WellFormed.{differ, chains_well};
ghost use Rattle.wellformed.specs.Slices.{is_chain_name};

use crate::fields::is_name;

// The chain name `.`, packed.
const POINT: u64 = 0x2e00_0000_0000_0000;

fn names_differ(chains: &[u64]) -> bool
    ensures { result ≡ differ chains.now }
{
    for i in 0..chains.len() {
        if chains[i + 1..].contains(&chains[i]) {
            return false;
        }
    }
    true
}

fn is_chain_name(name: u64) -> bool
    ensures { result ≡ is_chain_name name }
{
    is_name(name) && name != POINT
}

fn are_chain_names(chains: &[u64]) -> bool
    ensures { result ≡ every is_chain_name chains.now }
{
    chains.iter().all(|name| is_chain_name(*name))
}

#[tactic(auto, unfolding(model::specs::WellFormed::chains_well))]
pub(crate) fn are_chains_well(chains: &[u64]) -> bool
    ensures { result ≡ chains_well chains.now }
{
    names_differ(chains) && are_chain_names(chains)
}
