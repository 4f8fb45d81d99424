// What is held while rows are read: the counts, and where the records of each kind stand in their slices.
ghost use Rattle.std.specs.Prelude.{◌≡◌};
ghost use Rattle.building.specs.Gaps.{none_held};

use crate::sites::Counts;
use crate::stores::{Store, no_store};

#[derive(Clone, Copy)]
pub struct Held {
    pub counts: Counts,
    pub residues: Store,
    pub atoms: Store,
}

// Before the first row.
pub fn none_held() -> Held
    ensures { result ≡ none_held }
{
    Held {
        counts: Counts {
            chains: 0,
            residues: 0,
            atoms: 0,
            rows: 0,
            skipped: 0,
            outdone: 0,
            assumed: 0,
        },
        residues: no_store(),
        atoms: no_store(),
    }
}
