// Numbers: what a text is read as, and what a double is printed as.
use crate::doubles;
use crate::say::{say, say_bits};
use numbers::{NumberError, PrintError};
use std::io;

// The value's bits, or why it has none.
pub(crate) fn read(rt: &impl Print, text: &[u8]) -> io::Result<()> {
    let n = numbers::read_number(text);
    match n {
        Ok(x) => say_bits(rt, f64::to_bits(x)),
        Err(NumberError::OutsideGrammar) => say(rt, b"outside"),
        Err(NumberError::BeyondReach) => say(rt, b"beyond"),
    }
}

// The text with three places of the double whose bits are given, or that it has none.
pub(crate) fn print(rt: &impl Print, digits: &[u8]) -> io::Result<()> {
    let mut text = [0u8; 16];
    match numbers::write_thousandths(&mut text, 0, doubles::read(digits)) {
        Ok(end) if end <= 16 => say(rt, &text[0..end]),
        Ok(_) => Ok(()),
        Err(PrintError::BeyondReach) => say(rt, b"beyond"),
        Err(PrintError::NoRoom(_)) => say(rt, b"no room"),
    }
}
