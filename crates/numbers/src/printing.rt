// A number's text put at a place of a lent buffer: a whole number's digits, or a double's sign, whole number, point and places.
ghost use Rattle.std.specs.Prelude.{◌≡◌, ◌∷◌, ◌++◌, ◌+◌, ◌≤◌, length};
ghost use Rattle.ascii.specs.Output.{Stored, placed_of, buffer_after};
ghost use Rattle.numbers.specs.declared.printing.PrintError.TheVariants.{NoRoom};
ghost use Rattle.numbers.specs.Printing.{last_digits, digit_count, sign, fixed_text};
ghost use Rattle.numbers.specs.Writing.{printed_of, after_printing};

use crate::lengths::{digit_count, fixed_length};
use crate::rounding::{PLACES, UNITS_IN_ONE, is_negative, is_printable, units};
use ascii::NoRoom;

// Why a double's text was not put. The buffer is as it was.
#[derive(Clone, Copy)]
pub enum PrintError {
    // It isn't finite or is beyond 1,000,000 in magnitude: it has no text.
    BeyondReach,
    NoRoom(NoRoom),
}

impl From<NoRoom> for PrintError {
    ghost from_gives = { λ no_room e. e ≡ NoRoom no_room };

    fn from(no_room: NoRoom) -> PrintError {
        PrintError::NoRoom(no_room)
    }
}

// The last count digits of n, from the right, so that each costs a division by ten alone.
fn put_digits(out: &mut [u8], at: usize, count: usize, n: u64) -> usize
    requires { at + count ≤ length out.old }
    ensures { Stored out.old at (last_digits count n) out.new result }
{
    let mut rest = n;
    for place in (0..count).rev() {
        out[at + place] = b'0' + (rest % 10) as u8;
        rest /= 10;
    }
    at + count
}

// Puts a whole number's digits, with no zero in front, into the buffer from index at on.
pub fn write_whole(out: &mut [u8], at: usize, n: u64) -> Result<usize, NoRoom>
    ensures { (result ≡ placed_of out.old at (last_digits (digit_count n) n)) × (out.new ≡ buffer_after out.old at (last_digits (digit_count n) n)) }
{
    let count = digit_count(n);
    if !ascii::fits_at(out.len(), at, count) {
        return Err(NoRoom { needed: count });
    }
    Ok(put_digits(out, at, count, n))
}

fn put_sign(out: &mut [u8], at: usize, negative: bool) -> usize
    requires { at + length (sign negative) ≤ length out.old }
    ensures { Stored out.old at (sign negative) out.new result }
{
    if negative {
        out[at] = b'-';
        return at + 1;
    }
    at
}

// A sign or none, a whole number of so many digits, a point and the places, where there is room for them.
fn put_parts(out: &mut [u8], at: usize, negative: bool, count: usize, whole: u64, n: u64) -> usize
    requires { at + (length (sign negative) + count + 1 + 3) ≤ length out.old }
    ensures { Stored out.old at (sign negative ++ (last_digits count whole ++ (46 ∷ last_digits 3 n))) out.new result }
{
    let digits = put_sign(out, at, negative);
    let point = put_digits(out, digits, count, whole);
    out[point] = b'.';
    put_digits(out, point + 1, PLACES, n)
}

// Puts n units of the last place, with a sign or not, where they fit.
fn put_fixed(out: &mut [u8], at: usize, negative: bool, n: u64) -> Result<usize, NoRoom>
    ensures { (result ≡ placed_of out.old at (fixed_text 3 negative n)) × (out.new ≡ buffer_after out.old at (fixed_text 3 negative n)) }
{
    let whole = n / UNITS_IN_ONE;
    let count = digit_count(whole);
    let length = fixed_length(negative, count);
    if !ascii::fits_at(out.len(), at, length) {
        return Err(NoRoom { needed: length });
    }
    Ok(put_parts(out, at, negative, count, whole, n))
}

// Puts a double's text with three places into the buffer from index at on.
pub fn write_thousandths(out: &mut [u8], at: usize, x: f64) -> Result<usize, PrintError>
    ensures { (result ≡ printed_of 3 x out.old at) × (out.new ≡ after_printing 3 x out.old at) }
{
    if !is_printable(x) {
        return Err(PrintError::BeyondReach);
    }
    let negative = is_negative(x);
    let n = units(x);
    Ok(put_fixed(out, at, negative, n)?)
}
