// The rules of a row, steps 1 to 7, over its fields: why it is refused, or `None` where it is skipped, or a site.
ghost use Rattle.std.specs.Prelude.{◌≡◌};
ghost use Rattle.rows.specs.Rules.{too_long, named, unread, occupancy_of, coordinate_of, position_of, row_of};

use crate::fields::{Fields, Measure, Name, Number};
use crate::settings::{Settings, Unreadable};
use numbers::NumberError;
use refusals::{Axis, Label, Quantity, Reason};

#[derive(Clone, Copy)]
pub struct Point3 {
    pub x: f64,
    pub y: f64,
    pub z: f64,
}

// What a row says of one atom.
#[derive(Clone, Copy)]
pub struct Site {
    pub chain: u64,
    pub sequence: u32,
    pub insertion_code: u8,
    pub residue: u64,
    pub hetatm: bool,
    pub atom: u64,
    pub element: u8,
    pub position: Point3,
    pub occupancy: f64,
    pub assumed: bool,
}

// An occupancy, and whether it was assumed.
#[derive(Clone, Copy)]
struct Occupancy {
    value: f64,
    assumed: bool,
}

const ASSUMED_ONE: Occupancy = Occupancy {
    value: 1.0,
    assumed: true,
};

fn too_long(name: Name) -> bool
    ensures { result ≡ too_long name }
{
    8 < name.length
}

// Step 7.
#[tactic(auto, unfolding(crate::specs::Rules::named))]
fn named(f: Fields, position: Point3, occupancy: Occupancy) -> Result<Option<Site>, Reason>
    ensures { result ≡ named f position occupancy.value occupancy.assumed }
{
    if too_long(f.atom) {
        return Err(Reason::NameTooLong(Label::Atom));
    }
    if too_long(f.residue) {
        return Err(Reason::NameTooLong(Label::Residue));
    }
    if too_long(f.chain) {
        return Err(Reason::NameTooLong(Label::Chain));
    }
    Ok(Some(Site {
        chain: f.chain.packed,
        sequence: f.sequence,
        insertion_code: f.insertion_code,
        residue: f.residue.packed,
        hetatm: f.hetatm,
        atom: f.atom.packed,
        element: f.element,
        position,
        occupancy: occupancy.value,
        assumed: occupancy.assumed,
    }))
}

// An occupancy outside the grammar.
fn unread(unreadable: Unreadable) -> Occupancy
    ensures { result ≡ unread unreadable }
{
    match unreadable {
        Unreadable::Assumed => ASSUMED_ONE,
    }
}

// Step 6.
fn occupied(settings: Settings, occupancy: Measure) -> Result<Occupancy, Reason>
    ensures { result ≡ occupancy_of settings occupancy }
{
    match occupancy {
        None => Ok(ASSUMED_ONE),
        Some(Err(NumberError::OutsideGrammar)) => Ok(unread(settings.occupancy)),
        Some(Err(NumberError::BeyondReach)) => Err(Reason::BeyondReach(Quantity::Occupancy)),
        Some(Ok(value)) => Ok(Occupancy {
            value,
            assumed: false,
        }),
    }
}

// One of a position's three numbers.
fn coordinate_of(axis: Axis, n: Number) -> Result<f64, Reason>
    ensures { result ≡ coordinate_of axis n }
{
    match n {
        Ok(value) => Ok(value),
        Err(NumberError::OutsideGrammar) => Err(Reason::OutsideGrammar(axis)),
        Err(NumberError::BeyondReach) => Err(Reason::BeyondReach(Quantity::Coordinate(axis))),
    }
}

// Step 5.
fn located(x: Number, y: Number, z: Number) -> Result<Point3, Reason>
    ensures { result ≡ position_of x y z }
{
    let x = coordinate_of(Axis::X, x)?;
    let y = coordinate_of(Axis::Y, y)?;
    let z = coordinate_of(Axis::Z, z)?;
    Ok(Point3 { x, y, z })
}

// What becomes of a row: the first of steps 1 to 7 that refuses it says why; one that lacks a coordinate is skipped; any other is kept as a site.
#[tactic(auto, unfolding(crate::specs::Rules::row_of, crate::specs::Rules::reached, crate::specs::Rules::located, crate::specs::Rules::occupied))]
pub fn row_of(settings: Settings, f: Fields) -> Result<Option<Site>, Reason>
    ensures { result ≡ row_of settings f }
{
    // 1 to 3
    f.reach?;
    // 4
    let (Some(x), Some(y), Some(z)) = (f.x, f.y, f.z) else {
        return Ok(None);
    };
    // 5
    let position = located(x, y, z)?;
    // 6
    let occupancy = occupied(settings, f.occupancy)?;
    // 7
    named(f, position, occupancy)
}
