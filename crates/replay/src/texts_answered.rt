// Whole texts: the model that is read, or why the text is refused.
use crate::escapes;
use crate::records_said::say_records;
use crate::say::{say, say_number};
use model::{AtomsMut, Records, ResiduesMut};
use refusals::Refusal;
use std::io;

fn say_refusal(rt: &impl Print, why: Refusal) -> io::Result<()> {
    let reason = why.reason;
    say(rt, b"refused ")?;
    say_number(rt, reason.number() as u64)?;
    // The published Rust does not tell the place of a residue that it does not know.
    if why.line != 0 {
        say(rt, b" line ")?;
        say_number(rt, why.line as u64)?;
        say(rt, b" detail ")?;
        say_number(rt, reason.detail() as u64)?;
    }
    Ok(())
}

fn answer(rt: &impl Print, text: &[u8]) -> io::Result<()> {
    let mut chains = [0; 64];
    let mut residues = ResiduesMut {
        keys: &mut [0; 64],
        names: &mut [0; 64],
        codes: &mut [0; 64],
        categories: &mut [0; 64],
        positions: &mut [0; 64],
    };
    let mut atoms = AtomsMut {
        keys: &mut [0; 64],
        names: &mut [0; 64],
        elements: &mut [0; 64],
        positions: &mut [[0.0; 3]; 64],
        occupancies: &mut [0.0; 64],
    };
    let answer = reader::read_by_names(
        text,
        &mut chains,
        &mut residues,
        &mut atoms,
        rows::assuming(),
    );
    match answer {
        Ok(counts) => {
            say(rt, b"read")?;
            say_records(rt, Records::of_lent(&chains, &residues, &atoms), counts)
        }
        Err(why) => say_refusal(rt, why),
    }
}

pub(crate) fn structure(rt: &impl Print, escaped: &[u8]) -> io::Result<()> {
    let mut text = [0u8; 1024];
    let length = escapes::put_text(escaped, &mut text);
    if length <= 1024 {
        answer(rt, &text[0..length])?;
    }
    Ok(())
}
