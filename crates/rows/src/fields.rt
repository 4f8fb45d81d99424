// The fields of a row, taken out of its line: what the rules are asked of. Other formats give the same fields.
ghost use Rattle.std.specs.Prelude.{◌≡◌, List, ℕ, ◌≤◌, ◌<◌, min, length, take, option_copied};
ghost use Rattle.tokens.specs.Longest.{longest};
ghost use Rattle.tokens.specs.Tokens.{token_at};
ghost use Rattle.rows.specs.Reach.{reason_of};
ghost use Rattle.rows.specs.Fields.{name_of, chain_of, insertion_code_of, measure_of, InTokens, declared_at, hetatm_at, insertion_code_at, occupancy_at, element_at, fields_of};

use crate::columns::{Columns, is_absent};
use crate::reach::reach_of;
use numbers::NumberError;
use refusals::{Column, Reason};
use tokens::LONGEST;

// Nearly every row is a line of at most so many bytes, for which less has to be cleared than for the longest.
const SHORT: usize = 128;

// Why a row is refused before its fields are asked for. Reason has more, and no row earns those here.
#[derive(Clone, Copy)]
pub enum ReachError {
    // The first missing one.
    ColumnMissing(Column),
    Short,
}

impl From<ReachError> for Reason {
    ghost from_gives = { λ e why. why ≡ reason_of e };

    fn from(e: ReachError) -> Reason {
        match e {
            ReachError::ColumnMissing(column) => Reason::ColumnMissing(column),
            ReachError::Short => Reason::RowShort,
        }
    }
}

// A name: its true length, and its first eight bytes as a number.
#[derive(Clone, Copy)]
pub struct Name {
    pub length: usize,
    pub packed: u64,
}

// What a token says of a number.
pub(crate) type Number = Result<f64, NumberError>;

// A number that may not be given: `.` or `?`, or no column.
pub type Measure = Option<Number>;

#[derive(Clone, Copy)]
pub struct Fields {
    // Whether the row has all the columns that it must have, and reaches them.
    pub reach: Result<(), ReachError>,
    pub hetatm: bool,
    pub atom: Name,
    pub residue: Name,
    pub chain: Name,
    pub sequence: u32,
    pub insertion_code: u8,
    pub x: Measure,
    pub y: Measure,
    pub z: Measure,
    pub occupancy: Measure,
    pub element: u8,
}

fn name_of(token: &[u8]) -> Name
    ensures { result ≡ name_of token.now }
{
    Name {
        length: token.len(),
        packed: names::pack(token),
    }
}

fn chain_of(token: &[u8]) -> Name
    ensures { result ≡ chain_of token.now }
{
    if token_values::is_missing(token) {
        return name_of(b"?");
    }
    name_of(token)
}

fn insertion_code_of(token: &[u8]) -> u8
    ensures { result ≡ insertion_code_of token.now }
{
    if token_values::is_missing(token) {
        return 0;
    }
    ascii::byte_at(token, 0)
}

fn measure_of(token: &[u8]) -> Measure
    ensures { result ≡ measure_of token.now }
{
    if token_values::is_missing(token) {
        return None;
    }
    Some(numbers::read_number(token))
}

// The tokens of a line, one behind the other in a cell that they were copied to.
#[derive(Clone, Copy)]
struct Tokens<'a> {
    cell: &'a [u8],
    places: &'a [usize],
    count: usize,
}

impl<'a> Tokens<'a> {
    fn at(self, column: u8) -> &'a [u8]
        ensures { (line : List ℕ) → InTokens line self.entry → result.now ≡ token_at line column }
    {
        let part = tokens::part_of(self.cell, self.places, self.count, column as usize);
        &self.cell[part.start..part.end]
    }

    // The token at a column that the loop need not have; `None` where it has none.
    fn declared(self, column: u8) -> Option<&'a [u8]>
        ensures { (line : List ℕ) → InTokens line self.entry
            → option_copied result ≡ declared_at line column }
    {
        if is_absent(column) {
            return None;
        }
        Some(self.at(column))
    }
}

#[tactic(auto, unfolding(crate::specs::Fields::hetatm_at))]
fn hetatm_at(tokens: Tokens, column: u8) -> bool
    ensures { (line : List ℕ) → InTokens line tokens.entry → result ≡ hetatm_at line column }
{
    match tokens.declared(column) {
        Some(token) => token_values::is_hetatm(token),
        None => false,
    }
}

#[tactic(auto, unfolding(crate::specs::Fields::insertion_code_at))]
fn insertion_code_at(tokens: Tokens, column: u8) -> u8
    ensures { (line : List ℕ) → InTokens line tokens.entry → result ≡ insertion_code_at line column }
{
    match tokens.declared(column) {
        Some(token) => insertion_code_of(token),
        None => 0,
    }
}

#[tactic(auto, unfolding(crate::specs::Fields::occupancy_at))]
fn occupancy_at(tokens: Tokens, column: u8) -> Measure
    ensures { (line : List ℕ) → InTokens line tokens.entry → result ≡ occupancy_at line column }
{
    measure_of(tokens.declared(column)?)
}

#[tactic(auto, unfolding(crate::specs::Fields::element_at))]
fn element_at(tokens: Tokens, column: u8) -> u8
    ensures { (line : List ℕ) → InTokens line tokens.entry → result ≡ element_at line column }
{
    match tokens.declared(column) {
        Some(token) => names::element_of(token),
        None => 0,
    }
}

#[tactic(auto, unfolding(crate::specs::Fields::fields_of))]
fn fields_in(columns: Columns, tokens: Tokens) -> Fields
    ensures { (line : List ℕ) → InTokens line tokens.entry → result ≡ fields_of columns line }
{
    Fields {
        reach: reach_of(columns, tokens.count),
        hetatm: hetatm_at(tokens, columns.group()),
        atom: name_of(tokens.at(columns.atom())),
        residue: name_of(tokens.at(columns.residue())),
        chain: chain_of(tokens.at(columns.chain())),
        sequence: token_values::sequence_of(tokens.at(columns.sequence())),
        insertion_code: insertion_code_at(tokens, columns.insertion_code()),
        x: measure_of(tokens.at(columns.x())),
        y: measure_of(tokens.at(columns.y())),
        z: measure_of(tokens.at(columns.z())),
        occupancy: occupancy_at(tokens, columns.occupancy()),
        element: element_at(tokens, columns.symbol()),
    }
}

// The line is walked once, however many of its columns are needed. It has no more tokens than bytes, and no column is 256 or more.
fn fields_by(columns: Columns, line: &[u8], cell: &mut [u8], places: &mut [usize]) -> Fields
    requires { (length line.now ≤ length cell.old) × (min 256 (length line.now) < length places.old) }
    ensures { result ≡ fields_of columns line.now }
{
    let count = tokens::split_mmcif_line(line, cell, places);
    fields_in(
        columns,
        Tokens {
            cell,
            places,
            count,
        },
    )
}

fn fields_within<const BYTES: usize, const PLACES: usize>(columns: Columns, line: &[u8]) -> Fields
    requires { (length line.now ≤ BYTES) × (BYTES ≤ longest) × (min 256 BYTES < PLACES) × (PLACES ≤ 257) }
    ensures { result ≡ fields_of columns line.now }
{
    let mut cell = [0u8; BYTES];
    let mut places = [0usize; PLACES];
    fields_by(columns, line, &mut cell, &mut places)
}

// The fields of a line; of one longer than 2,048 bytes, those of its first 2,048.
pub fn fields_of(columns: Columns, line: &[u8]) -> Fields
    ensures { result ≡ fields_of columns (take longest line.now) }
{
    if line.len() <= SHORT {
        return fields_within::<SHORT, 129>(columns, line);
    }
    if line.len() <= LONGEST {
        return fields_within::<LONGEST, 257>(columns, line);
    }
    fields_within::<LONGEST, 257>(columns, &line[0..LONGEST])
}
