// Tokens: what a line is split into, how a name is quoted, what sequence number a token writes.
use crate::say::{say, say_number};
use std::io;

// The k-th token as LENGTH:TOKEN, after a blank where it is not the first; whether there is one.
fn say_token(rt: &impl Print, line: &[u8], k: usize) -> io::Result<bool> {
    let mut cell = [0u8; 256];
    let length = tokens::tokenize_mmcif_line(line, k, &mut cell);
    if length == 0 {
        return Ok(false);
    }
    if k != 0 {
        say(rt, b" ")?;
    }
    say_number(rt, length as u64)?;
    say(rt, b":")?;
    if length <= 256 {
        say(rt, &cell[0..length])?;
    }
    Ok(true)
}

// Each token of the line, which has no more of them than bytes.
pub(crate) fn tokens(rt: &impl Print, line: &[u8]) -> io::Result<()> {
    for k in 0..=line.len() {
        if !say_token(rt, line, k)? {
            break;
        }
    }
    Ok(())
}

pub(crate) fn quote(rt: &impl Print, name: &[u8]) -> io::Result<()> {
    let mut text = [0u8; 256];
    let Ok(end) = tokens::quote_string(name, &mut text, 0) else {
        return say(rt, b"no room");
    };
    if end <= 256 {
        say(rt, &text[0..end])?;
    }
    Ok(())
}

// The number is moved up by 2 ^ 31.
pub(crate) fn sequence(rt: &impl Print, token: &[u8]) -> io::Result<()> {
    say_number(rt, token_values::sequence_of(token) as u64)
}
