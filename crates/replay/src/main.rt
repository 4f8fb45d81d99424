// Reads stored questions from standard input and writes our answer to each, a line to a line. The file stdout has the answers of the
// published Rust, which what is written is held to.
#![tactic(auto)]

use std::io;
use std::io::Read;

mod doubles;
mod escapes;
mod names_answered;
mod numbers_answered;
mod parts;
mod records_said;
mod say;
mod texts_answered;
mod tokens_answered;

fn answer(rt: &impl Print, question: &[u8], text: &[u8]) -> io::Result<()> {
    match question {
        b"read" => numbers_answered::read(rt, text),
        b"print" => numbers_answered::print(rt, text),
        b"tokens" => tokens_answered::tokens(rt, text),
        b"quote" => tokens_answered::quote(rt, text),
        b"sequence" => tokens_answered::sequence(rt, text),
        b"resolve" => names_answered::resolve(rt, text),
        b"element" => names_answered::element(rt, text),
        b"structure" => texts_answered::structure(rt, text),
        _ => say::say(rt, b"not a question"),
    }
}

// A line is a question, a blank, and the text that it is asked of.
fn answer_line(rt: &impl Print, line: &[u8]) -> io::Result<()> {
    let blank = parts::end_of(line, 0, b' ');
    if blank < line.len() {
        answer(rt, &line[0..blank], &line[blank + 1..])?;
    }
    say::say(rt, b"\n")
}

fn answer_all(rt: &impl Print, text: &[u8]) -> io::Result<()> {
    let mut at = 0;
    while at < text.len() {
        let end = parts::end_of(text, at, b'\n');
        answer_line(rt, &text[at..end])?;
        at = end + 1;
    }
    Ok(())
}

// The most bytes that are read.
const LARGEST: u64 = 262144;

fn main(rt: HostRuntime) -> io::Result<()> {
    let mut text = Vec::new(rt.alloc());
    rt.stdin().take(LARGEST).read_to_end(&mut text)?;
    answer_all(&rt, &text)
}
