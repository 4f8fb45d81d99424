// All tokens of a line copied to a lent cell, one behind the other, in one walk: a row's fields are then taken from the cell, and the
// line is not walked again for each of them.
ghost use Rattle.std.specs.Prelude.{◌≡◌, length, drop};
ghost use Rattle.std.proofs.lemmas.List.Edits.{sets};
ghost use Rattle.tokens.specs.Split.{joined, places_from, token_in, IsPart};
ghost use Rattle.tokens.specs.Tokens.{tokens_from, tokens_of};

use crate::store::store;
use crate::tokenize::{Act, act_of};
use crate::trim::content_of;

// The tokens of a text at whose start no quote is open and no token is begun. begin: where the token so far begins in the
// cell; len: how many bytes the cell has; count: how many tokens are whole.
fn split_text(text: &[u8], cell: &mut [u8], places: &mut [usize]) -> usize
    ensures value { result ≡ length (tokens_from text.now) }
    ensures cell_after { cell.new ≡ sets cell.old 0 (joined (tokens_from text.now)) }
    ensures places_after { places.new ≡ sets places.old 0 (places_from 0 (tokens_from text.now)) }
{
    store(places, 0, 0);
    let mut quote = 0;
    let mut begin = 0;
    let mut len = 0;
    let mut count = 0;
    for b in text {
        match act_of(quote, len - begin, *b) {
            Act::Add => {
                store(cell, len, *b);
                len += 1;
            }
            Act::End if len == begin => {}
            Act::End => {
                begin = len;
                count += 1;
                store(places, count, len);
            }
            Act::Turn(q) => {
                quote = q;
            }
        }
    }
    if begin < len {
        count += 1;
        store(places, count, len);
    }
    count
}

// Copies the tokens of the line to the front of the cell, one behind the other, and their places to the front of the other slice, as far
// as they fit. How many tokens the line has.
pub fn split_mmcif_line(line: &[u8], cell: &mut [u8], places: &mut [usize]) -> usize
    ensures value { result ≡ length (tokens_of line.now) }
    ensures cell_after { cell.new ≡ sets cell.old 0 (joined (tokens_of line.now)) }
    ensures places_after { places.new ≡ sets places.old 0 (places_from 0 (tokens_of line.now)) }
{
    split_text(content_of(line), cell, places)
}

#[derive(Clone, Copy)]
pub struct Part {
    pub start: usize,
    pub end: usize,
}

// All from an index on.
fn rest_of(cell: &[u8], start: usize) -> Part
    ensures { IsPart cell.now (drop start cell.now) result }
{
    let end = cell.len();
    if end < start {
        return Part { start: 0, end: 0 };
    }
    Part { start, end }
}

// Where the k-th of n tokens stands in the cell that they were copied to; an empty part where there is none, which no token
// is: a row asks what stands in a column, and an absent one reads as an empty one.
pub fn part_of(cell: &[u8], places: &[usize], n: usize, k: usize) -> Part
    ensures { IsPart cell.now (token_in cell.now places.now n k) result }
{
    if n <= k {
        return Part { start: 0, end: 0 };
    }
    if places.len() <= k + 1 {
        return Part { start: 0, end: 0 };
    }
    let start = places[k];
    let end = places[k + 1];
    if cell.len() < end {
        return rest_of(cell, start);
    }
    if end < start {
        return Part { start: 0, end: 0 };
    }
    Part { start, end }
}
