// A packed name put byte by byte, straight from its number: it is walked as a number, with no index.
ghost use Rattle.std.specs.Prelude.{◌≡◌, length, IfSome};
ghost use Rattle.names.specs.Packing.{unpacked};
ghost use Rattle.row_texts.specs.Emitted.{Emits};
ghost use Rattle.row_texts.specs.Fields.{name_text};

use crate::emitting::put_byte;

// How many bytes a packed name has, where each stands behind the blanks and the quotes in ASCII, so that it is written as it is. A name
// without a byte is written in quotes.
pub(crate) fn plain_length(name: u64) -> Option<usize>
    ensures { IfSome result (λ n. (name_text name ≡ unpacked name) × (n ≡ length (unpacked name))) }
{
    if name == 0 {
        return None;
    }
    let mut rest = name;
    let mut n = 0;
    while rest != 0 {
        if names::first_byte(rest) <= b'\'' {
            return None;
        }
        rest = names::after_first(rest);
        n += 1;
    }
    Some(n)
}

// Its bytes as they are.
pub(crate) fn put_packed(out: &mut [u8], at: usize, name: u64) -> usize
    ensures { Emits out at (unpacked name) result }
{
    let mut left = name;
    let mut next = at;
    while left != 0 {
        next = put_byte(out, next, names::first_byte(left));
        left = names::after_first(left);
    }
    next
}
