// What a model's records hold, a word and its fields to each.
use crate::say::{say, say_bits, say_number};
use building::Counts;
use field_slices::entry_at;
use model::{Atom, Records, Residue};
use std::io;

// The length of the name and the name.
fn say_name(rt: &impl Print, packed: u64) -> io::Result<()> {
    let mut cell = [0u8; 8];
    let length = names::unpack(packed, &mut cell);
    say(rt, b" ")?;
    say_number(rt, length as u64)?;
    say(rt, b":")?;
    if length <= 8 {
        say(rt, &cell[0..length])?;
    }
    Ok(())
}

fn say_field(rt: &impl Print, n: u64) -> io::Result<()> {
    say(rt, b" ")?;
    say_number(rt, n)
}

// A double's bits.
fn say_double(rt: &impl Print, x: f64) -> io::Result<()> {
    say(rt, b" ")?;
    if x == x {
        return say_bits(rt, f64::to_bits(x));
    }
    say(rt, b"nan")
}

// The chain's place from 0, the sequence number plus 2 ^ 31, the insertion code.
fn say_key(rt: &impl Print, key: u64) -> io::Result<()> {
    say_field(rt, model::chain_part(key))?;
    say_field(rt, model::sequence_part(key) as u64)?;
    say_field(rt, model::code_part(key) as u64)
}

fn say_chain(rt: &impl Print, name: u64) -> io::Result<()> {
    say(rt, b" chain")?;
    say_name(rt, name)
}

fn say_residue(rt: &impl Print, key: u64, residue: Residue) -> io::Result<()> {
    say(rt, b" residue")?;
    say_key(rt, key)?;
    say_name(rt, residue.name)?;
    say_field(rt, residue.code as u64)?;
    say_field(rt, residue.category as u64)?;
    say_field(rt, residue.position as u64)
}

fn say_atom(rt: &impl Print, atom: Atom) -> io::Result<()> {
    say(rt, b" atom")?;
    say_key(rt, atom.key)?;
    say_name(rt, atom.name)?;
    say_field(rt, atom.element as u64)?;
    say_double(rt, atom.position.x)?;
    say_double(rt, atom.position.y)?;
    say_double(rt, atom.position.z)
}

fn say_chains(rt: &impl Print, names: &[u64], count: usize) -> io::Result<()> {
    for name in names.iter().take(count) {
        say_chain(rt, *name)?;
    }
    Ok(())
}

fn say_residues(rt: &impl Print, records: Records<'_>, count: usize) -> io::Result<()> {
    for i in 0..count {
        say_residue(
            rt,
            entry_at(records.residue_keys, i, 0),
            records.residue_at(i),
        )?;
    }
    Ok(())
}

fn say_atoms(rt: &impl Print, records: Records<'_>, count: usize) -> io::Result<()> {
    for i in 0..count {
        say_atom(rt, records.atom_at(i))?;
    }
    Ok(())
}

// As many of each kind as were read.
pub(crate) fn say_records(rt: &impl Print, records: Records<'_>, counts: Counts) -> io::Result<()> {
    say_chains(rt, records.chains, counts.chains)?;
    say_residues(rt, records, counts.residues)?;
    say_atoms(rt, records, counts.atoms)
}
