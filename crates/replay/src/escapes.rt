// A text with its lines on one line: byte 10 is written \n, byte 13 \r, and \ is doubled.

fn plain_byte(b: u8) -> u8 {
    match b {
        b'n' => b'\n',
        b'r' => b'\r',
        _ => b,
    }
}

// Puts the byte at the place, if there is one; the place behind it.
fn put_byte(out: &mut [u8], at: usize, byte: u8) -> usize {
    ascii::put_text(&[byte], out, at).unwrap_or(at)
}

fn put_plain(out: &mut [u8], at: usize, escaped: bool, b: u8) -> usize {
    match b {
        _ if escaped => put_byte(out, at, plain_byte(b)),
        b'\\' => at,
        _ => put_byte(out, at, b),
    }
}

// Puts the text as it is into the buffer, as far as it fits; its length there.
pub(crate) fn put_text(text: &[u8], out: &mut [u8]) -> usize {
    let mut place = 0;
    let mut escaped = false;
    for b in text {
        place = put_plain(out, place, escaped, *b);
        escaped = !escaped && *b == b'\\';
    }
    place
}
