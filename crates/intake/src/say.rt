// What goes to standard output.
use std::io;

pub(crate) fn text(rt: &impl Print, bytes: &[u8]) -> io::Result<()> {
    rt.write_all(bytes)
}

pub(crate) fn refused(rt: &impl Print, why: u8, line: usize, detail: usize) -> io::Result<()> {
    println!(rt; "refused {why} line {line} detail {detail}")
}
