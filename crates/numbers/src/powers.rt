// Powers of ten that a 64-bit number and a double both hold exactly.
ghost use Rattle.std.specs.Prelude.{◌≡◌, ◌≤◌, ◌^◌};

static POWERS: [u64; 16] = [
    1,
    10,
    100,
    1_000,
    10_000,
    100_000,
    1_000_000,
    10_000_000,
    100_000_000,
    1_000_000_000,
    10_000_000_000,
    100_000_000_000,
    1_000_000_000_000,
    10_000_000_000_000,
    100_000_000_000_000,
    1_000_000_000_000_000,
];

#[tactic(auto, using(crate::proofs::PowerLaws::power_at))]
pub(crate) fn power_of_ten(k: usize) -> u64
    requires { k ≤ 15 }
    ensures { result ≡ 10 ^ k }
{
    POWERS[k]
}
