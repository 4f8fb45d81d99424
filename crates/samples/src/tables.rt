// Samples in a table: a line with the name, and then the lines that are read, each of which begins with a blank.
ghost use Rattle.std.specs.Prelude.{◌≤◌, ◌<◌, length};

use crate::answers::{Word, show_lines};
use std::io;

// The place behind the line that an index is in.
fn behind_line(table: &[u8], from: usize) -> usize
    requires { from < length table.now }
    ensures { (from < result) × (result ≤ length table.now) }
{
    for i in from..table.len() {
        if table[i] == b'\n' {
            return i + 1;
        }
    }
    table.len()
}

// The place behind the lines that begin with a blank.
fn behind_lines(table: &[u8], from: usize) -> usize
    requires { from ≤ length table.now }
    ensures { (from ≤ result) × (result ≤ length table.now) }
{
    let mut i = from;
    while i < table.len() {
        if table[i] != b' ' {
            return i;
        }
        i = behind_line(table, i);
    }
    i
}

pub(crate) fn show_table(rt: &impl Print, table: &[u8], word: Word) -> io::Result<()> {
    let mut at = 0;
    while at < table.len() {
        let start = behind_line(table, at);
        let end = behind_lines(table, start);
        show_lines(rt, &table[at..start - 1], &table[start..end], word)?;
        at = end;
    }
    Ok(())
}
