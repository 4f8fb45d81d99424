// Decimal digits: how many a text begins with, and the number that they write.
ghost use Rattle.std.specs.Prelude.{◌≡◌};
ghost use Rattle.ascii.specs.Digits.{digit_of, digit_run, all_digits, number_from, capped};

// No number grows past this, whatever the digits: the next digit still fits in 64 bits.
const CAP: u64 = 1_000_000_000_000_000_000;

fn digit_of(b: u8) -> u64
    ensures { result ≡ digit_of b }
{
    match b {
        b'0'..=b'9' => (b - b'0') as u64,
        _ => 0,
    }
}

#[tactic(auto, using(crate::proofs::DigitLaws::capped_least))]
fn cap(n: u64) -> u64
    ensures { result ≡ capped n }
{
    n.min(CAP)
}

// How many digits s begins with.
pub fn count_digits(s: &[u8]) -> usize
    ensures { result ≡ digit_run s.now }
{
    s.iter().take_while(|b| b.is_ascii_digit()).count()
}

// Whether s is some digits, and nothing else.
pub fn all_digits(s: &[u8]) -> bool
    ensures { result ≡ all_digits s.now }
{
    !s.is_empty() && s.iter().all(|b| b.is_ascii_digit())
}

// The number that the digits s write after those that wrote n, capped.
pub fn number_from(n: u64, s: &[u8]) -> u64
    ensures { result ≡ capped (number_from n s.now) }
{
    let mut v = cap(n);
    for b in s {
        v = cap(v * 10 + digit_of(*b));
    }
    v
}
