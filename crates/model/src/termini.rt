// A residue's position in its chain, by the kind of its standard code.
ghost use Rattle.std.specs.Prelude.{◌≡◌};
ghost use Rattle.names.specs.Polymers.{polymer_of};
ghost use Rattle.names.specs.Positions.{position_code};
ghost use Rattle.model.specs.Termini.{position_by, of_either, is_polymer};

use names::{Polymer, ResiduePosition};

fn position_by(kind: Polymer, first: bool, last: bool) -> ResiduePosition
    ensures { result ≡ position_by kind first last }
{
    match kind {
        Polymer::Neither => ResiduePosition::None,
        Polymer::Protein if first => ResiduePosition::NTerminal,
        Polymer::Protein if last => ResiduePosition::CTerminal,
        Polymer::Nucleic if first => ResiduePosition::FivePrime,
        Polymer::Nucleic if last => ResiduePosition::ThreePrime,
        Polymer::Protein | Polymer::Nucleic => ResiduePosition::Internal,
    }
}

// The number in a lent record.
pub(crate) fn position_of(code: u8, first: bool, last: bool) -> u8
    ensures { result ≡ position_code (position_by (polymer_of code) first last) }
{
    position_by(Polymer::of_code(code), first, last).code()
}

fn of_either(kind: Polymer) -> bool
    ensures { result ≡ of_either kind }
{
    match kind {
        Polymer::Protein | Polymer::Nucleic => true,
        Polymer::Neither => false,
    }
}

// Standard and not HOH.
pub fn is_polymer(code: u8) -> bool
    ensures { result ≡ is_polymer code }
{
    of_either(Polymer::of_code(code))
}
