// The records of a model, lent for reading: one shared slice to a field, passed together by value.
ghost use Rattle.std.specs.Prelude.{◌≡◌};
ghost use Rattle.model.specs.Lent.{room_of, residue_in, atom_in, lent_in};
ghost use Rattle.model.specs.LentNow.{lent_now};
ghost use Rattle.model.specs.TakenOut.{residue_out, atom_out};

use crate::keys::{chain_part, code_part, sequence_part};
use crate::lent::{AtomsMut, ResiduesMut};
use crate::room::{Room, room_by};
use crate::taken_out::{Atom, Residue, point_of, signed};
use field_slices::entry_at;

#[derive(Clone, Copy)]
pub struct Records<'a> {
    pub chains: &'a [u64],
    pub residue_keys: &'a [u64],
    pub residue_names: &'a [u64],
    pub residue_codes: &'a [u8],
    pub residue_categories: &'a [u8],
    pub residue_positions: &'a [u8],
    pub atom_keys: &'a [u64],
    pub atom_names: &'a [u64],
    pub elements: &'a [u8],
    pub positions: &'a [[f64; 3]],
    pub occupancies: &'a [f64],
}

impl<'a> Records<'a> {
    // What is lent to be written, lent on to be read.
    pub fn of_lent(
        chains: &'a [u64],
        residues: &'a ResiduesMut<'_>,
        atoms: &'a AtomsMut<'_>,
    ) -> Records<'a>
        ensures { lent_in result ≡ lent_now chains.now residues.now atoms.now }
    {
        Records {
            chains,
            residue_keys: residues.keys,
            residue_names: residues.names,
            residue_codes: residues.codes,
            residue_categories: residues.categories,
            residue_positions: residues.positions,
            atom_keys: atoms.keys,
            atom_names: atoms.names,
            elements: atoms.elements,
            positions: atoms.positions,
            occupancies: atoms.occupancies,
        }
    }

    // The room of the lent slices.
    #[tactic(auto, unfolding(crate::specs::Lent::room_of))]
    pub fn room(self) -> Room
        ensures { result ≡ room_of (lent_in self.entry) }
    {
        room_by(
            self.chains.len(),
            self.residue_keys.len(),
            self.residue_names.len(),
            self.residue_codes.len(),
            self.residue_categories.len(),
            self.residue_positions.len(),
            self.atom_keys.len(),
            self.atom_names.len(),
            self.elements.len(),
            self.positions.len(),
            self.occupancies.len(),
        )
    }

    // The residue at an index, by value.
    pub fn residue_at(self, i: usize) -> Residue
        ensures { result ≡ residue_out (residue_in (lent_in self.entry) i) }
    {
        let key = entry_at(self.residue_keys, i, 0);
        Residue {
            chain: chain_part(key),
            sequence: signed(sequence_part(key)),
            insertion_code: code_part(key),
            name: entry_at(self.residue_names, i, 0),
            code: entry_at(self.residue_codes, i, 0),
            category: entry_at(self.residue_categories, i, 0),
            position: entry_at(self.residue_positions, i, 0),
        }
    }

    // The atom at an index, by value.
    pub fn atom_at(self, i: usize) -> Atom
        ensures { result ≡ atom_out (atom_in (lent_in self.entry) i) }
    {
        Atom {
            key: entry_at(self.atom_keys, i, 0),
            name: entry_at(self.atom_names, i, 0),
            element: entry_at(self.elements, i, 0),
            position: point_of(entry_at(self.positions, i, [0.0; 3])),
            occupancy: entry_at(self.occupancies, i, 0.0),
        }
    }
}
