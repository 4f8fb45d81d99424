// A residue's key, one number of the place of its chain, its sequence and its insertion code; and these three, by the key.
ghost use Rattle.std.specs.Prelude.{◌≡◌, ◌≤◌};
ghost use Rattle.model.specs.Keys.{residue_key, chain_part, sequence_part, code_part};

// From a chain to the next.
const CHAIN_STEP: u64 = 1099511627776;

// From a sequence number to the next.
const SEQUENCE_STEP: u64 = 256;

// The place is that of a chain among at most 4,096.
pub fn residue_key(place: usize, sequence: u32, code: u8) -> u64
    ensures { place ≤ 4096 → result ≡ residue_key place sequence code }
{
    if 4096 < place {
        return 0;
    }
    place as u64 * CHAIN_STEP + sequence as u64 * SEQUENCE_STEP + code as u64
}

// The place of the chain.
pub fn chain_part(key: u64) -> u64
    ensures { result ≡ chain_part key }
{
    key / CHAIN_STEP
}

// The sequence, still moved up by 2 ^ 31.
pub fn sequence_part(key: u64) -> u32
    ensures { result ≡ sequence_part key }
{
    (key % CHAIN_STEP / SEQUENCE_STEP) as u32
}

// The insertion code, 0 for none.
pub fn code_part(key: u64) -> u8
    ensures { result ≡ code_part key }
{
    (key % SEQUENCE_STEP) as u8
}
