// The residues: names and insertion codes; classes, while the atoms are passed; positions, while the chains are.
ghost use Rattle.std.specs.Prelude.{◌≡◌, ◌≤◌, length};
ghost use Rattle.model.specs.Lent.{lent_in};
ghost use Rattle.wellformed.specs.Slices.{is_residue_named, residues_named, residues_classed, residues_stand, residues_well, Within};
ghost use Rattle.wellformed.specs.Walks.{is_classed};

use crate::fields::{has_code, is_name};
use model::{Records, Room, class_of, is_alone, met_with, pass_lesser, position_between};

// ---- names and insertion codes

fn is_residue_named(key: u64, name: u64) -> bool
    ensures { result ≡ is_residue_named key name }
{
    is_name(name) && has_code(key)
}

fn are_residues_named(keys: &[u64], names: &[u64], n: usize) -> bool
    requires { (n ≤ length keys.now) × (n ≤ length names.now) }
    ensures { result ≡ residues_named keys.now names.now n }
{
    for i in 0..n {
        if !is_residue_named(keys[i], names[i]) {
            return false;
        }
    }
    true
}

// ---- classes

// Whether name, standard code and category are as ruled; an alias would lead to another name.
fn is_classed(name: u64, code: u8, category: u8, lone: bool) -> bool
    ensures { result ≡ is_classed (record { name = name; code = code; category = category }) lone }
{
    let ruled = class_of(name, lone);
    name == ruled.name && code == ruled.code && category == ruled.category
}

// One walk over residues and atoms: the atoms of lesser keys are passed, and the next two tell whether the residue has one alone.
fn are_classed(records: Records<'_>, counts: Room) -> bool
    requires { Within (lent_in records) counts }
    ensures { result ≡ residues_classed (lent_in records.entry) counts }
{
    let mut from = 0;
    for i in 0..counts.residues {
        let key = records.residue_keys[i];
        from = pass_lesser(records.atom_keys, counts.atoms, from, key);
        let lone = is_alone(records.atom_keys, counts.atoms, from, key);
        if !is_classed(
            records.residue_names[i],
            records.residue_codes[i],
            records.residue_categories[i],
            lone,
        ) {
            return false;
        }
    }
    true
}

// ---- positions

fn are_positioned(keys: &[u64], codes: &[u8], positions: &[u8], n: usize) -> bool
    requires { (n ≤ length keys.now) × (n ≤ length codes.now) × (n ≤ length positions.now) }
    ensures { result ≡ residues_stand keys.now codes.now positions.now n }
{
    let mut met = 0;
    for i in 0..n {
        let key = keys[i];
        let code = codes[i];
        let position = position_between(keys, codes, n, i + 1, key, code, met);
        if positions[i] != position {
            return false;
        }
        met = met_with(met, key, code);
    }
    true
}

// ---- all of it

pub(crate) fn are_residues_well(records: Records<'_>, counts: Room) -> bool
    requires { Within (lent_in records) counts }
    ensures { result ≡ residues_well (lent_in records.entry) counts }
{
    are_residues_named(records.residue_keys, records.residue_names, counts.residues)
        && are_classed(records, counts)
        && are_positioned(
            records.residue_keys,
            records.residue_codes,
            records.residue_positions,
            counts.residues,
        )
}
