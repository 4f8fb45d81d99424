// A double to three places: its exact value, taken from its bits, to the nearest unit of the last place.
ghost use Rattle.std.specs.Prelude.{◌≡◌, ◌<◌, ◌^◌, T};
ghost use Rattle.std.specs.Float.Ieee.Nearest.{closest};
ghost use Rattle.numbers.specs.Bits.{significand_of, exponent_of};
ghost use Rattle.numbers.specs.Rounding.{printable, units_of, is_negative};

use std::cmp::Ordering;

// The places that a double is printed with, and how many units of the last one are in 1.
pub(crate) const PLACES: usize = 3;

pub(crate) const UNITS_IN_ONE: u64 = 1000;

// The bit of the sign, and the bit above the fraction's 52.
const SIGN: u64 = 9223372036854775808;

const LEADING: u64 = 4503599627370496;

// Whether the double has a text: it is finite, and at most 1,000,000 in magnitude.
pub fn is_printable(x: f64) -> bool
    ensures { result ≡ printable x }
{
    x <= 1000000.0 && -1000000.0 <= x
}

// A double's magnitude is its significand times 2 to its exponent, over 2 ^ 1074.
fn significand(bits: u64) -> u64
    ensures { (result ≡ significand_of bits) × (result < 9007199254740992) }
{
    let field = bits % SIGN / LEADING;
    let fraction = bits % LEADING;
    if field == 0 {
        fraction
    } else {
        LEADING + fraction
    }
}

fn exponent(bits: u64) -> u64
    ensures { result ≡ exponent_of bits }
{
    let field = bits % SIGN / LEADING;
    field.saturating_sub(1)
}

// n / 2 ^ k to the nearest whole number, ties to even.
fn nearest_shifted(n: u64, k: u64) -> u64
    requires { (k < 64) × (n < 9223372036854775808) }
    ensures { result ≡ closest n (2 ^ k) }
{
    let d = 1u64 << k;
    let q = n >> k;
    let r = n - (q << k);
    match r.cmp(&(d - r)) {
        Ordering::Less => q,
        Ordering::Greater => q + 1,
        Ordering::Equal => q + q % 2,
    }
}

// The magnitude in units of the last place.
pub(crate) fn units(x: f64) -> u64
    requires { T (printable x) }
    ensures { result ≡ units_of 3 x }
{
    let bits = f64::to_bits(x);
    let n = significand(bits) * UNITS_IN_ONE;
    let e = exponent(bits);
    // so small that less than half a unit is left
    if e < 1011 {
        return 0;
    }
    nearest_shifted(n, 1074 - e)
}

// The bit decides, so that -0.0 has its minus sign.
pub(crate) fn is_negative(x: f64) -> bool
    requires { T (printable x) }
    ensures { result ≡ is_negative x }
{
    SIGN <= f64::to_bits(x)
}
