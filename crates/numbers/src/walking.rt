// Digits in one walk: the number that they write, and the place after them.
ghost use Rattle.std.specs.Prelude.{◌≡◌, ◌+◌, ◌≤◌, ◌<◌, ◌^◌, length, drop};
ghost use Rattle.ascii.specs.Digits.{digit_run, number_from};
ghost use Rattle.numbers.specs.Grammar.{digits};

#[derive(Clone, Copy)]
pub(crate) struct Walked {
    pub number: u64,
    pub end: usize,
}

// The digits of s from index from on, after those that wrote n. Of so few no number needs a cap.
pub(crate) fn walk_digits(s: &[u8], from: usize, n: u64) -> Walked
    requires { (from ≤ length s.now) × ((length s.now ≤ 15) × (n < 10 ^ from)) }
    ensures number_value { result.number ≡ number_from n (digits (drop from s.now)) }
    ensures end_value { result.end ≡ from + digit_run (drop from s.now) }
    ensures number_bound { (result.number < 10 ^ result.end) × (result.end ≤ length s.now) }
{
    let mut number = n;
    for i in from..s.len() {
        let b = s[i];
        if !b.is_ascii_digit() {
            return Walked { number, end: i };
        }
        number = number * 10 + (b - b'0') as u64;
    }
    Walked {
        number,
        end: s.len(),
    }
}
