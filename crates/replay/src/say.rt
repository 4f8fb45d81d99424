// What is answered goes to standard output.
use std::io;

pub(crate) fn say(rt: &impl Print, text: &[u8]) -> io::Result<()> {
    rt.write_all(text)
}

pub(crate) fn say_number(rt: &impl Print, n: u64) -> io::Result<()> {
    print!(rt; "{n}")
}

// A double's bits, as sixteen hexadecimal digits.
pub(crate) fn say_bits(rt: &impl Print, bits: u64) -> io::Result<()> {
    print!(rt; "{bits:016x}")
}
