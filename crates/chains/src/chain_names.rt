// The names of a chain list, taken out of its records and stored into them; the reader and the writer work over the names.
ghost use Rattle.std.specs.Prelude.{◌≡◌, min, replicate};
ghost use Rattle.chains.specs.Names.{names_in, taken_over, named};

use crate::chain::Chain;
use field_slices::entry_at;

// As many names as a model may have chains.
pub type Names = [u64; 4096];

pub fn no_names() -> Names
    ensures { result ≡ replicate 4096 0 }
{
    [0; 4096]
}

// How many names an array has of a list of so many.
pub fn kept(size: usize) -> usize
    ensures { result ≡ min size 4096 }
{
    size.min(4096)
}

// The names of the first 4,096 chains; names beyond the last chain stay.
pub fn take_names(chains: &[Chain], names: &mut Names)
    ensures { names.new ≡ taken_over (names_in chains.now) names.old }
{
    for i in 0..kept(chains.len()) {
        names[i] = chains[i].name;
    }
}

// The first records get the first names, and 0 past the last name; the others stay.
pub fn store_names(chains: &mut [Chain], names: &Names, count: usize)
    ensures { chains.new ≡ named chains.old names.now count }
{
    for i in 0..count.min(chains.len()) {
        chains[i].name = entry_at(names, i, 0);
    }
}
