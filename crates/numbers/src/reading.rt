// Decimal text to the nearest double: Rust's grammar for `f64::from_str`, and the values within reach.
ghost use Rattle.std.specs.Prelude.{◌≡◌, [], ◌*◌, ◌^◌, ◌≤◌, ◌<◌, leb, length};
ghost use Rattle.std.specs.Float.{binary64};
ghost use Rattle.std.specs.Float.Ieee.{round};
ghost use Rattle.numbers.specs.Grammar.{decimal, is_word, is_exponent, parts, after_whole, unsigned};
ghost use Rattle.numbers.specs.Limits.{farthest};
ghost use Rattle.numbers.specs.Reading.{value_of, read_as, number_of};

use crate::powers::power_of_ten;
use crate::walking::walk_digits;

#[derive(Clone, Copy)]
pub enum NumberError {
    OutsideGrammar,
    BeyondReach,
}

const MOST_DIGITS: usize = 15;

const FARTHEST: u64 = 1_000_000;

fn is_word(s: &[u8]) -> bool
    ensures { result ≡ is_word s.now }
{
    ascii::eq_ignore_ascii_case(s, b"inf")
        || ascii::eq_ignore_ascii_case(s, b"infinity")
        || ascii::eq_ignore_ascii_case(s, b"nan")
}

fn is_exponent(s: &[u8]) -> bool
    ensures { result ≡ is_exponent s.now }
{
    match s {
        [b'e' | b'E', power @ ..] => ascii::all_digits(ascii::after_sign(power)),
        _ => false,
    }
}

// Both whole numbers are exact as doubles, so that one division is the nearest double to their fraction.
fn quotient(negative: bool, n: u64, p: u64) -> f64
    requires { (n < 1000000000000000) × ((0 < p) × (p ≤ 1000000000000000)) }
    ensures { result ≡ round binary64 negative n p }
{
    let q = n as f64 / p as f64;
    if negative { -q } else { q }
}

// Whether n / p is at most FARTHEST, where p is 10 to the power of places.
fn is_near(n: u64, places: usize, p: u64) -> bool
    requires { (n < 1000000000000000) × (p ≡ 10 ^ places) }
    ensures { result ≡ leb n (farthest * 10 ^ places) }
{
    // so many places of 15 digits leave at most six before the point, and FARTHEST * p could wrap
    9 <= places || n <= FARTHEST * p
}

// What at most 15 digits are that write n without their point, so many of them places.
fn valued(negative: bool, n: u64, places: usize) -> Result<f64, NumberError>
    requires { (n < 1000000000000000) × (places ≤ 15) }
    ensures { result ≡ value_of negative n places }
{
    let p = power_of_ten(places);
    if is_near(n, places, p) {
        Ok(quotient(negative, n, p))
    } else {
        Err(NumberError::BeyondReach)
    }
}

// The digits before the point and those after it.
fn read_decimal(negative: bool, whole: &[u8], places: &[u8]) -> Result<f64, NumberError>
    ensures { result ≡ read_as (decimal negative whole.now places.now []) }
{
    if MOST_DIGITS < whole.len() || MOST_DIGITS - whole.len() < places.len() {
        return Err(NumberError::BeyondReach);
    }
    let n = ascii::number_from(ascii::number_from(0, whole), places);
    valued(negative, n, places.len())
}

fn read_parts(negative: bool, whole: &[u8], places: &[u8], rest: &[u8]) -> Result<f64, NumberError>
    ensures { result ≡ read_as (parts negative whole.now places.now rest.now) }
{
    if whole.len() + places.len() == 0 {
        return Err(NumberError::OutsideGrammar);
    }
    if rest.is_empty() {
        return read_decimal(negative, whole, places);
    }
    if is_exponent(rest) {
        Err(NumberError::BeyondReach)
    } else {
        Err(NumberError::OutsideGrammar)
    }
}

fn read_after_whole(negative: bool, whole: &[u8], rest: &[u8]) -> Result<f64, NumberError>
    ensures { result ≡ read_as (after_whole negative whole.now rest.now) }
{
    let Some(behind) = rest.strip_prefix(b".") else {
        return read_parts(negative, whole, &[], rest);
    };
    let (places, rest) = behind.split_at(ascii::count_digits(behind));
    read_parts(negative, whole, places, rest)
}

fn read_unsigned(negative: bool, s: &[u8]) -> Result<f64, NumberError>
    ensures { result ≡ read_as (unsigned negative s.now) }
{
    if is_word(s) {
        return Err(NumberError::BeyondReach);
    }
    let (whole, rest) = s.split_at(ascii::count_digits(s));
    read_after_whole(negative, whole, rest)
}

// The same in one walk over what nearly every number is: digits, or digits, a point and digits or none.
fn read_short(negative: bool, s: &[u8]) -> Result<f64, NumberError>
    requires { length s.now ≤ 15 }
    ensures { result ≡ read_as (unsigned negative s.now) }
{
    let whole = walk_digits(s, 0, 0);
    let point = whole.end;
    // a word, a point without a digit before it, or nothing
    if point == 0 {
        return read_unsigned(negative, s);
    }
    if point == s.len() {
        return valued(negative, whole.number, 0);
    }
    if s[point] != b'.' {
        return read_unsigned(negative, s);
    }
    let all = walk_digits(s, point + 1, whole.number);
    if all.end != s.len() {
        return read_unsigned(negative, s);
    }
    valued(negative, all.number, s.len() - 1 - point)
}

// What a text is as a number.
pub fn read_number(s: &[u8]) -> Result<f64, NumberError>
    ensures { result ≡ number_of s.now }
{
    let negative = ascii::byte_at(s, 0) == b'-';
    let unsigned = ascii::after_sign(s);
    if unsigned.len() <= MOST_DIGITS {
        return read_short(negative, unsigned);
    }
    read_unsigned(negative, unsigned)
}
