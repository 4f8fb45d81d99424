// The domain of a text: which bytes may stand in it, and the first one that may not.
ghost use Rattle.std.specs.Prelude.{◌≡◌, ◌+◌, ◌<◌, ◌≤◌, cond, length, get_or};
ghost use Rattle.ascii.specs.Lists.{every};
ghost use Rattle.lines.specs.Domain.{stands_anywhere, line_behind, outside_of};

// A byte outside the domain, and its line, counted from 1.
#[derive(Clone, Copy)]
pub struct Outside {
    pub line: usize,
    pub byte: u8,
}

// The line that follows on the byte at index i, which is in this line; none where the byte is outside the domain.
// Nearly every byte is 32 to 126, so that is asked first.
fn line_behind(text: &[u8], i: usize, line: usize) -> Option<usize>
    requires { (i < length text.now) × (line ≤ i + 1) }
    ensures { result ≡ line_behind line (get_or text.now i 0) (get_or text.now (i + 1) 0) }
{
    let b = text[i];
    if b' ' <= b {
        if b <= b'~' {
            return Some(line);
        }
        return None;
    }
    match b {
        b'\t' => Some(line),
        b'\n' => Some(line + 1),
        b'\r' => {
            if ascii::byte_at(text, i + 1) == b'\n' {
                return Some(line);
            }
            None
        }
        _ => None,
    }
}

// The first byte outside the domain, and its line, by a walk that looks at each byte and the one after it.
fn walk_to_outside(text: &[u8]) -> Option<Outside>
    ensures { result ≡ outside_of text.now }
{
    let mut line = 1;
    for i in 0..text.len() {
        let Some(next) = line_behind(text, i, line) else {
            return Some(Outside {
                line,
                byte: text[i],
            });
        };
        line = next;
    }
    None
}

// 0 for a byte that may stand anywhere, else 1.
fn oddness(b: u8) -> u8
    ensures { result ≡ cond (stands_anywhere b) 0 1 }
{
    if b < b' ' {
        if b == b'\n' {
            return 0;
        }
        if b == b'\t' {
            return 0;
        }
        return 1;
    }
    if b'~' < b {
        return 1;
    }
    0
}

// Whether no byte is odd. A compiler takes many bytes at a time where a loop asks for the greatest of small numbers and
// has no other way out.
fn none_odd(text: &[u8]) -> bool
    ensures { result ≡ every stands_anywhere text.now }
{
    let mut most: u8 = 0;
    for b in text {
        let odd = oddness(*b);
        if most < odd {
            most = odd;
        }
    }
    most == 0
}

// The first byte outside the domain, and its line. Nearly every text has bytes alone that may stand anywhere.
pub fn first_outside(text: &[u8]) -> Option<Outside>
    ensures { result ≡ outside_of text.now }
{
    if none_odd(text) {
        return None;
    }
    walk_to_outside(text)
}
