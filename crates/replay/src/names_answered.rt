// Names: the canonical name and the standard residue that a name stands for, the element of a symbol.
use crate::say::{say, say_number};
use std::io;

fn say_name(rt: &impl Print, packed: u64) -> io::Result<()> {
    let mut cell = [0u8; 8];
    let length = names::unpack(packed, &mut cell);
    if length <= 8 {
        say(rt, &cell[0..length])?;
    }
    Ok(())
}

pub(crate) fn resolve(rt: &impl Print, name: &[u8]) -> io::Result<()> {
    let Some(found) = names::resolve(names::pack(name)) else {
        return say(rt, b"unresolved");
    };
    say_name(rt, found.name)?;
    say(rt, b" ")?;
    say_name(rt, found.residue.name())
}

pub(crate) fn element(rt: &impl Print, symbol: &[u8]) -> io::Result<()> {
    say_number(rt, names::element_of(symbol) as u64)
}
