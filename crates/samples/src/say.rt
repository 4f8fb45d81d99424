// What every sample writes to standard output.
use numbers::PrintError;
use std::io;

pub(crate) fn say(rt: &impl Print, text: &[u8]) -> io::Result<()> {
    rt.write_all(text)
}

// A packed name.
pub(crate) fn say_name(rt: &impl Print, packed: u64) -> io::Result<()> {
    let mut cell = [0u8; 8];
    let length = names::unpack(packed, &mut cell);
    if length <= 8 {
        say(rt, &cell[0..length])?;
    }
    Ok(())
}

// A double with three places.
pub(crate) fn say_value(rt: &impl Print, x: f64) -> io::Result<()> {
    let mut text = [0u8; 16];
    match numbers::write_thousandths(&mut text, 0, x) {
        Ok(end) if end <= 16 => say(rt, &text[0..end]),
        Ok(_) => Ok(()),
        Err(PrintError::BeyondReach) => say(rt, b"beyond reach"),
        Err(PrintError::NoRoom(_)) => say(rt, b"no room"),
    }
}
