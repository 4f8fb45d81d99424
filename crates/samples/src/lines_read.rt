// Lines of 2,048 and 2,049 bytes: blank ones, remarks and rows.
use crate::answers::{Word, show};
use crate::say::say;
use crate::texts::{put, put_atoms, repeat};
use std::io;

// A line behind headers, with so many bytes in its middle.
fn put_line(out: &mut [u8], start: &[u8], middle: &[u8], count: usize, end: &[u8]) -> usize {
    let place = put_atoms(out, start);
    let place = repeat(out, place, middle, count);
    put(out, place, end)
}

fn show_line(
    rt: &impl Print,
    name: &[u8],
    start: &[u8],
    middle: &[u8],
    count: usize,
    end: &[u8],
) -> io::Result<()> {
    let mut text = [0u8; 4096];
    let length = put_line(&mut text, start, middle, count, end);
    if length <= 4096 {
        show(rt, name, &text[0..length], Word::Nothing)?;
    }
    Ok(())
}

// A line of 2,048 bytes, and the same with one more.
fn show_both(
    rt: &impl Print,
    name: &[u8],
    start: &[u8],
    middle: &[u8],
    count: usize,
    end: &[u8],
) -> io::Result<()> {
    say(rt, b"2048 bytes, ")?;
    show_line(rt, name, start, middle, count, end)?;
    if count < 2049 {
        say(rt, b"2049 bytes, ")?;
        show_line(rt, name, start, middle, count + 1, end)?;
    }
    Ok(())
}

pub(crate) fn show_all(rt: &impl Print) -> io::Result<()> {
    show_both(rt, b"blanks", b"", b" ", 2048, b"\n")?;
    show_both(rt, b"tabs with no ending", b"", b"\t", 2048, b"")?;
    show_both(rt, b"blanks before 13 10", b"", b" ", 2048, b"\r\n")?;
    show_both(rt, b"a remark", b"#", b"x", 2047, b"\n")?;
    show_both(rt, b"a row", b"ATOM C CA MET A 7 1 2", b" ", 2024, b"3 1\n")?;
    show_both(rt, b"a short row", b"ATOM", b" ", 2043, b"C\n")
}
