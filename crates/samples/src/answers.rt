// A sample's line: its name, what reading the text answers, and where it matters a word on the records.
use crate::say::{say, say_name, say_value};
use crate::text_read::{Reading, read};
use crate::texts::put_atoms;
use building::Counts;
use refusals::Refusal;
use std::io;

// What is said of the records besides the answer.
#[derive(Clone, Copy)]
pub(crate) enum Word {
    Nothing,
    // The names of the first chain, residue and atom, if there is an atom.
    Names,
    // Where the first atom is, and its occupancy, if there is an atom.
    Place,
    // Whether what is past the counts is zero, which it was not before.
    Rest,
}

// Chains, residues, atoms, rows, skipped, outdone, assumed.
fn say_counts(rt: &impl Print, counts: Counts) -> io::Result<()> {
    print!(rt;
        "read {} {} {} {} {} {} {}",
        counts.chains,
        counts.residues,
        counts.atoms,
        counts.rows,
        counts.skipped,
        counts.outdone,
        counts.assumed
    )
}

fn say_refusal(rt: &impl Print, why: Refusal) -> io::Result<()> {
    let reason = why.reason;
    print!(rt;
        "refused {} line {} detail {}",
        reason.number(),
        why.line,
        reason.detail()
    )
}

fn say_answer(rt: &impl Print, answer: Result<Counts, Refusal>) -> io::Result<()> {
    match answer {
        Ok(counts) => say_counts(rt, counts),
        Err(why) => say_refusal(rt, why),
    }
}

fn say_names(rt: &impl Print, reading: Reading) -> io::Result<()> {
    if reading.atom == 0 {
        return Ok(());
    }
    say(rt, b"; chain ")?;
    say_name(rt, reading.chain)?;
    say(rt, b" residue ")?;
    say_name(rt, reading.residue)?;
    say(rt, b" atom ")?;
    say_name(rt, reading.atom)
}

fn say_place(rt: &impl Print, reading: Reading) -> io::Result<()> {
    if reading.atom == 0 {
        return Ok(());
    }
    let position = reading.position;
    say(rt, b"; at ")?;
    say_value(rt, position[0])?;
    say(rt, b" ")?;
    say_value(rt, position[1])?;
    say(rt, b" ")?;
    say_value(rt, position[2])?;
    say(rt, b" occupancy ")?;
    say_value(rt, reading.occupancy)
}

fn say_rest(rt: &impl Print, reading: Reading) -> io::Result<()> {
    if reading.rest_is_zero {
        say(rt, b"; the rest is zero")
    } else {
        say(rt, b"; the rest is not zero")
    }
}

fn say_word(rt: &impl Print, reading: Reading, word: Word) -> io::Result<()> {
    match word {
        Word::Nothing => Ok(()),
        Word::Names => say_names(rt, reading),
        Word::Place => say_place(rt, reading),
        Word::Rest => say_rest(rt, reading),
    }
}

pub(crate) fn say_sample(
    rt: &impl Print,
    name: &[u8],
    answer: Result<Counts, Refusal>,
) -> io::Result<()> {
    say(rt, name)?;
    say(rt, b": ")?;
    say_answer(rt, answer)
}

pub(crate) fn show(rt: &impl Print, name: &[u8], text: &[u8], word: Word) -> io::Result<()> {
    let reading = read(text);
    say_sample(rt, name, reading.answer)?;
    say_word(rt, reading, word)?;
    say(rt, b"\n")
}

// The lines behind the headers of document 01's whole case.
pub(crate) fn show_lines(rt: &impl Print, name: &[u8], lines: &[u8], word: Word) -> io::Result<()> {
    let mut text = [0u8; 1024];
    let length = put_atoms(&mut text, lines);
    if length <= 1024 {
        show(rt, name, &text[0..length], word)?;
    }
    Ok(())
}
