// Steps 1 to 3 of a row: which column is missing, and whether the row reaches all that it must.
ghost use Rattle.std.specs.Prelude.{◌≡◌};
ghost use Rattle.rows.specs.Reach.{required, optional, first_absent, missing_column, misses, is_short, reach_of};

use crate::columns::{Columns, is_absent};
use crate::fields::ReachError;
use refusals::{Column, column_at};

fn required_columns(columns: Columns) -> [u8; 7]
    ensures { result ≡ required columns }
{
    [
        columns.atom(),
        columns.residue(),
        columns.chain(),
        columns.sequence(),
        columns.x(),
        columns.y(),
        columns.z(),
    ]
}

fn optional_columns(columns: Columns) -> [u8; 4]
    ensures { result ≡ optional columns }
{
    [
        columns.group(),
        columns.insertion_code(),
        columns.occupancy(),
        columns.symbol(),
    ]
}

// The place of the first absent column.
#[tactic(auto, unfolding(crate::specs::Reach::first_absent))]
fn first_absent(columns: &[u8]) -> Option<usize>
    ensures { result ≡ first_absent 0 columns.now }
{
    columns.iter().position(|column| is_absent(*column))
}

// The first column that a row must have and the loop does not.
#[tactic(auto, using(crate::proofs::ReachLaws::absent_within), unfolding(crate::specs::Reach::missing_column))]
fn missing_column(columns: Columns) -> Option<Column>
    ensures { result ≡ missing_column columns }
{
    let place = first_absent(&required_columns(columns))?;
    Some(column_at(place as u8))
}

// Whether a row of n tokens does not reach one of the columns that are declared.
#[tactic(auto, unfolding(crate::specs::Reach::misses))]
fn misses(n: usize, columns: &[u8]) -> bool
    ensures { result ≡ misses n columns.now }
{
    columns
        .iter()
        .any(|column| !is_absent(*column) && n <= *column as usize)
}

fn is_short(columns: Columns, n: usize) -> bool
    ensures { result ≡ is_short columns n }
{
    misses(n, &required_columns(columns)) || misses(n, &optional_columns(columns))
}

// Whether a row of n tokens has all the columns that it must have, and reaches them and those that it must reach where they are declared.
#[tactic(auto, unfolding(crate::specs::Reach::reach_of))]
pub(crate) fn reach_of(columns: Columns, n: usize) -> Result<(), ReachError>
    ensures { result ≡ reach_of columns n }
{
    if let Some(column) = missing_column(columns) {
        return Err(ReachError::ColumnMissing(column));
    }
    if is_short(columns, n) {
        return Err(ReachError::Short);
    }
    Ok(())
}
