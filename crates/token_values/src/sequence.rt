// A residue's sequence number, moved up by 2 ^ 31: a natural number, in the order of the signed numbers.
ghost use Rattle.std.specs.Prelude.{◌≡◌};
ghost use Rattle.token_values.specs.Sequence.{positive_of, negative_of, sequence_of};

// The sequence numbers 0 and 1.
const ZERO: u64 = 2_147_483_648;

const ONE: u32 = 2_147_483_649;

fn positive(n: u64) -> u32
    ensures { result ≡ positive_of n }
{
    if n < ZERO { (ZERO + n) as u32 } else { ONE }
}

fn negative(n: u64) -> u32
    ensures { result ≡ negative_of n }
{
    if n <= ZERO { (ZERO - n) as u32 } else { ONE }
}

// The number that the token writes; 1 where it writes none that fits in 32 bits with its sign.
pub fn sequence_of(token: &[u8]) -> u32
    ensures { result ≡ sequence_of token.now }
{
    let digits = ascii::after_sign(token);
    if !ascii::all_digits(digits) {
        return ONE;
    }
    let n = ascii::number_from(0, digits);
    if ascii::byte_at(token, 0) == b'-' {
        negative(n)
    } else {
        positive(n)
    }
}
