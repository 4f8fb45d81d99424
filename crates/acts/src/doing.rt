// What an act does: step 8 over the lent slices for a site that is kept; a count for a row that is skipped, and a refusal, which need no slice.
ghost use Rattle.std.specs.Prelude.{◌≡◌, List, ℕ, take, set};
ghost use Rattle.model.specs.LentNow.{SameAtoms};
ghost use Rattle.building.specs.Holds.{records_now, SameLengths};
ghost use Rattle.building.specs.Kinds.{KeepsResidues};
ghost use Rattle.building.specs.Slices.{ChainFound};
ghost use Rattle.acts.specs.Standing.{standing_by, passed_at, Keeps};

use crate::act::Act;
use building::{Held, put_site, skip_row};
use model::{AtomsMut, ResiduesMut, Room};
use refusals::{Reason, RecordKind, Refusal};
use rows::Site;

// Where a reading stands: what the slices hold, and the refusal that has ended it, if one has.
#[derive(Clone, Copy)]
pub struct Standing {
    pub held: Held,
    pub halt: Result<(), Refusal>,
}

fn standing_by(number: usize, held: Held, put: Result<Held, RecordKind>) -> Standing
    ensures { result ≡ standing_by number held put }
{
    match put {
        Ok(held) => Standing { held, halt: Ok(()) },
        Err(kind) => Standing {
            held,
            halt: Err(Refusal {
                line: number,
                reason: Reason::NoRoom(kind),
            }),
        },
    }
}

// The site that the line with this number keeps, put in at its chain's place.
pub fn keep_site(
    residues: &mut ResiduesMut<'_>,
    atoms: &mut AtomsMut<'_>,
    room: Room,
    number: usize,
    held: Held,
    place: usize,
    site: Site,
) -> Standing
    ensures same_residues { KeepsResidues residues.old residues.new }
    ensures same_atoms { SameAtoms atoms.old atoms.new }
    ensures lengths { (chains : List ℕ) → SameLengths (records_now chains residues.old atoms.old) (records_now chains residues.new atoms.new) }
    ensures keeps { (chains : List ℕ) → ChainFound (take held.counts.chains chains) site.chain place →
        Keeps (records_now chains residues.old atoms.old) room number held site result (records_now (set chains place site.chain) residues.new atoms.new) }
{
    let put = put_site(residues, atoms, room, held, place, site);
    standing_by(number, held, put)
}

// What an act of that line does to what is held, before a site is put in: nothing, a skipped row more, or the refusal.
pub fn pass_act(number: usize, held: Held, act: Act) -> Standing
    ensures { result ≡ passed_at number held act }
{
    match act {
        Act::Pass | Act::Keep(_) => Standing { held, halt: Ok(()) },
        Act::Skip => Standing {
            held: skip_row(held),
            halt: Ok(()),
        },
        Act::Refuse(why) => Standing {
            held,
            halt: Err(Refusal {
                line: number,
                reason: why,
            }),
        },
    }
}
