// Each residue's position in its chain.
ghost use Rattle.std.specs.Prelude.{◌≡◌, ◌+◌, ◌<◌, get_or, drop, take};
ghost use Rattle.field_slices.specs.Places.{pairs};
ghost use Rattle.model.specs.LentNow.{SameResidues};
ghost use Rattle.model.specs.Neighbours.{met_with, position_between};
ghost use Rattle.finishing.specs.Filling.{filled};
ghost use Rattle.finishing.specs.Positioning.{position_at, PositionsAlone};

use field_slices::{entry_at, store};
use model::{ResiduesMut, met_with, position_between};

// The position of residue i, of n, by the chain that was met last before it.
fn position_of(residues: &ResiduesMut<'_>, n: usize, i: usize, met: u64) -> u8
    requires { i < n }
    ensures { let r = residues.now in
        result ≡ position_between met (get_or r.keys.now i 0) (get_or r.codes.now i 0) (drop (i + 1) (take n (pairs r.keys.now r.codes.now))) }
{
    let key = entry_at(residues.keys, i, 0);
    let code = entry_at(residues.codes, i, 0);
    position_between(residues.keys, residues.codes, n, i + 1, key, code, met)
}

// The chain that was met last, residue i included.
fn met_past(residues: &ResiduesMut<'_>, i: usize, met: u64) -> u64
    ensures { let r = residues.now in result ≡ met_with met (get_or r.keys.now i 0) (get_or r.codes.now i 0) }
{
    met_with(
        met,
        entry_at(residues.keys, i, 0),
        entry_at(residues.codes, i, 0),
    )
}

pub(crate) fn position_residues(residues: &mut ResiduesMut<'_>, n: usize)
    ensures same { SameResidues residues.old residues.new }
    ensures positions { residues.new.positions.now ≡ filled (position_at residues.old.keys.now residues.old.codes.now n) n residues.old.positions.now }
    ensures others { PositionsAlone residues.old residues.new }
{
    let mut met = 0;
    for i in 0..n {
        let position = position_of(residues, n, i, met);
        met = met_past(residues, i, met);
        store(residues.positions, i, position);
    }
}
