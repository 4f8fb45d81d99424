// Document 01: "A model is well formed if: ..".
ghost use Rattle.std.specs.Prelude.{◌≡◌};
ghost use Rattle.model.specs.Lent.{lent_in};
ghost use Rattle.model.specs.WellFormed.{within, well_formed_in};
ghost use Rattle.wellformed.specs.Slices.{Within, records_well};

use crate::atoms::are_atoms_well;
use crate::chains::are_chains_well;
use crate::order::in_order;
use crate::residues::are_residues_well;
use crate::runs::in_runs;
use model::{Records, Room};

// Counts fit records and sizes.
fn is_within(counts: Room, room: Room) -> bool
    ensures { result ≡ within counts room }
{
    counts.chains <= room.chains && counts.residues <= room.residues && counts.atoms <= room.atoms
}

// Runs and order come before the residues, so that one walk over these tells classes and positions.
fn are_records_well(records: Records<'_>, counts: Room) -> bool
    requires { Within (lent_in records) counts }
    ensures { result ≡ records_well (lent_in records.entry) counts }
{
    are_chains_well(&records.chains[0..counts.chains])
        && in_runs(records, counts)
        && in_order(records, counts)
        && are_atoms_well(records, counts.atoms)
        && are_residues_well(records, counts)
}

// The counts come first, so that every index is within its slice.
pub fn is_well_formed(records: Records<'_>, counts: Room) -> bool
    ensures { result ≡ well_formed_in (lent_in records.entry) counts }
{
    is_within(counts, records.room()) && are_records_well(records, counts)
}
