// A double from sixteen hexadecimal digits of its bits.
ghost use Rattle.std.specs.Prelude.{◌<◌};

fn digit_value(b: u8) -> u64
    ensures { result < 16 }
{
    match b {
        b'0'..=b'9' => (b - b'0') as u64,
        b'a'..=b'f' => (b - b'a' + 10) as u64,
        _ => 0,
    }
}

fn bits_of(digits: &[u8]) -> u64 {
    let mut bits: u64 = 0;
    for i in 0..16 {
        bits = bits % 0x1000_0000_0000_0000 * 16 + digit_value(ascii::byte_at(digits, i));
    }
    bits
}

// The double of sixteen digits. Every pattern above an infinity's is NaN, of which the language makes one.
pub(crate) fn read(digits: &[u8]) -> f64 {
    let bits = bits_of(digits);
    if 0x7ff0_0000_0000_0000 < bits % 0x8000_0000_0000_0000 {
        return 0.0 / 0.0;
    }
    f64::from_bits(bits)
}
