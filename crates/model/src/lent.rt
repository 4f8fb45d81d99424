// The records of a model, lent to be written: one slice to a field, the residues' together and the atoms' together. C lends each slice by itself, so a caller makes the two of them.
ghost use Rattle.std.specs.Prelude.{List, ◌≡◌, ℕ, length};
ghost use Rattle.model.specs.Lent.{room_of};
ghost use Rattle.model.specs.LentNow.{lent_now};

use crate::room::{Room, room_by};

#[derive(Drop)]
pub struct ResiduesMut<'a> {
    pub keys: &'a mut [u64],
    pub names: &'a mut [u64],
    pub codes: &'a mut [u8],
    pub categories: &'a mut [u8],
    pub positions: &'a mut [u8],
}

#[derive(Drop)]
pub struct AtomsMut<'a> {
    pub keys: &'a mut [u64],
    pub names: &'a mut [u64],
    pub elements: &'a mut [u8],
    pub positions: &'a mut [[f64; 3]],
    pub occupancies: &'a mut [f64],
}

// The room in them, beside so many chains.
pub fn room_in(chains: usize, residues: &ResiduesMut<'_>, atoms: &AtomsMut<'_>) -> Room
    ensures { (names : List ℕ) → length names ≡ chains → result ≡ room_of (lent_now names residues.now atoms.now) }
{
    room_by(
        chains,
        residues.keys.len(),
        residues.names.len(),
        residues.codes.len(),
        residues.categories.len(),
        residues.positions.len(),
        atoms.keys.len(),
        atoms.names.len(),
        atoms.elements.len(),
        atoms.positions.len(),
        atoms.occupancies.len(),
    )
}
