// A name of at most 8 bytes as one number, and back: the first byte highest, zeros after the end.
ghost use Rattle.std.specs.Prelude.{◌≡◌, length, drop};
ghost use Rattle.ascii.specs.Bytes.{first};
ghost use Rattle.names.specs.Packing.{packed, unpacked, cell_of};

use ascii::byte_at;

// What the highest of a number's 8 bytes counts.
const TOP: u64 = 0x0100_0000_0000_0000;

// The name as a number; of a longer text, its first 8 bytes.
pub fn pack(name: &[u8]) -> u64
    ensures { result ≡ packed name.now }
{
    let mut number = 0;
    for i in 0..8 {
        number = number * 256 + byte_at(name, i) as u64;
    }
    number
}

// The first byte of a packed name; 0 where it has none.
#[tactic(auto, using(crate::proofs::PackingTurns::unpacked_first))]
pub fn first_byte(name: u64) -> u8
    ensures { result ≡ first (unpacked name) }
{
    (name / TOP) as u8
}

// The name without its first byte.
#[tactic(auto, using(crate::proofs::PackingTurns::unpacked_after))]
pub fn after_first(name: u64) -> u64
    ensures { unpacked result ≡ drop 1 (unpacked name) }
{
    name % TOP * 256
}

// How many bytes a packed name has.
#[tactic(auto, using(crate::proofs::PackingTurns::unpacked_none, crate::proofs::PackingTurns::unpacked_short, crate::proofs::PackingTurns::one_less))]
pub(crate) fn name_len(name: u64) -> usize
    ensures { result ≡ length (unpacked name) }
{
    let mut rest = name;
    let mut n = 0;
    while rest != 0 {
        rest = after_first(rest);
        n += 1;
    }
    n
}

// Puts the bytes of a packed name into the cell, zeros after them, and says how many they are.
#[tactic(auto, using(crate::proofs::CellTurns::filling_first, crate::proofs::CellTurns::filling_turn, crate::proofs::CellTurns::filling_last))]
pub fn unpack(name: u64, cell: &mut [u8]) -> usize
    ensures { (result ≡ length (unpacked name)) × (cell.new ≡ cell_of (length cell.old) (unpacked name)) }
{
    let mut rest = name;
    for byte in cell.iter_mut() {
        *byte = first_byte(rest);
        rest = after_first(rest);
    }
    name_len(name)
}
