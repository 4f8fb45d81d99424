// Numbers: the two limits of reach and the forms of the grammar, each read and printed with three places.
use crate::say::{say, say_value};
use numbers::NumberError;
use std::io;

fn show(rt: &impl Print, text: &[u8]) -> io::Result<()> {
    say(rt, text)?;
    say(rt, b" is ")?;
    match numbers::read_number(text) {
        Ok(x) => say_value(rt, x)?,
        Err(NumberError::OutsideGrammar) => say(rt, b"outside the grammar")?,
        Err(NumberError::BeyondReach) => say(rt, b"beyond reach")?,
    }
    say(rt, b"\n")
}

pub(crate) fn show_all(rt: &impl Print) -> io::Result<()> {
    show(rt, b"1000000")?;
    show(rt, b"1000000.1")?;
    show(rt, b"123456.789012345")?;
    show(rt, b"123456.7890123456")?;
    show(rt, b"1e3")?;
    show(rt, b"5.")?;
    show(rt, b".5")?;
    show(rt, b"0,5")
}
