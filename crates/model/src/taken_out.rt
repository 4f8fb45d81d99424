// A record taken out of the lent slices by value; zero in every field where there is none.
ghost use Rattle.std.specs.Prelude.{◌≡◌};
ghost use Rattle.model.specs.Lent.{point_of};
ghost use Rattle.model.specs.TakenOut.{signed};

use rows::Point3;

#[derive(Clone, Copy)]
pub struct Residue {
    // The place of its chain, from 0.
    pub chain: u64,
    pub sequence: i32,
    // 0 for none.
    pub insertion_code: u8,
    pub name: u64,
    // The numbers of the standard residue, the category and the position.
    pub code: u8,
    pub category: u8,
    pub position: u8,
}

#[derive(Clone, Copy)]
pub struct Atom {
    // Its residue's key.
    pub key: u64,
    pub name: u64,
    pub element: u8,
    pub position: Point3,
    pub occupancy: f64,
}

// A sequence number without its bias.
pub(crate) fn signed(sequence: u32) -> i32
    ensures { result ≡ signed sequence }
{
    (sequence as i64 - 2147483648) as i32
}

pub(crate) fn point_of(coordinates: [f64; 3]) -> Point3
    ensures { result ≡ point_of coordinates }
{
    Point3 {
        x: coordinates[0],
        y: coordinates[1],
        z: coordinates[2],
    }
}
