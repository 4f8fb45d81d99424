// How many bytes a number's text has: a whole number's digits, or a double's sign, whole number, point and places.
ghost use Rattle.std.specs.Prelude.{◌≡◌, true, false, ◌+◌, ◌≤◌, length};
ghost use Rattle.numbers.specs.Rounding.{printable};
ghost use Rattle.numbers.specs.Printing.{last_digits, digit_count, sign, text_of};

use crate::rounding::{PLACES, UNITS_IN_ONE, is_negative, is_printable, units};

// How many decimal digits n has.
pub(crate) fn digit_count(n: u64) -> usize
    ensures { result ≡ digit_count n }
{
    match n.checked_ilog10() {
        Some(power) => power as usize + 1,
        None => 1,
    }
}

// A sign or none is one byte or none, then comes a whole number of so many digits, a point and the places.
pub(crate) fn fixed_length(negative: bool, count: usize) -> usize
    requires { count ≤ 20 }
    ensures { result ≡ length (sign negative) + count + 1 + 3 }
{
    usize::from(negative) + count + 1 + PLACES
}

// How many bytes a whole number's text has.
pub fn whole_length(n: u64) -> usize
    ensures { result ≡ length (last_digits (digit_count n) n) }
{
    digit_count(n)
}

// How many bytes a double's text with three places has: none where it has no text.
pub fn thousandths_length(x: f64) -> usize
    ensures { (printable x ≡ true → result ≡ length (text_of 3 x)) × (printable x ≡ false → result ≡ 0) }
{
    if !is_printable(x) {
        return 0;
    }
    let count = digit_count(units(x) / UNITS_IN_ONE);
    fixed_length(is_negative(x), count)
}
