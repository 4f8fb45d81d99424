// What a line does, by its first token and the state.
ghost use Rattle.std.specs.Prelude.{◌≡◌, take};
ghost use Rattle.tokens.specs.Longest.{longest};
ghost use Rattle.line_states.specs.States.{recorded_of, item_in, first_row, other_in, moved_by_token, moved_by};

use crate::heads::{Heads, State, in_state, no_heads, with_header};
use tokens::LONGEST;

// At most so many headers in a loop.
const HEADERS: usize = 64;

// More bytes than any word that is asked for has.
const CELL: usize = 32;

#[derive(Clone, Copy)]
pub enum Does {
    Nothing,
    Row,
    TooManyHeaders,
}

#[derive(Clone, Copy)]
pub struct Moved {
    pub heads: Heads,
    pub does: Does,
}

fn moved_to(heads: Heads, does: Does) -> Moved
    ensures { result ≡ record { heads = heads; does = does } }
{
    Moved { heads, does }
}

fn recorded(heads: Heads, token: &[u8]) -> Moved
    ensures { result ≡ recorded_of heads token.now }
{
    if HEADERS <= heads.headers {
        return moved_to(heads, Does::TooManyHeaders);
    }
    moved_to(with_header(heads, token), Does::Nothing)
}

// A token that begins `_`.
fn item_in(heads: Heads, token: &[u8]) -> Moved
    ensures { result ≡ item_in heads.state heads token.now }
{
    match heads.state {
        State::Base => moved_to(heads, Does::Nothing),
        State::Header => recorded(heads, token),
        State::AtomLoop => moved_to(in_state(State::Base, heads), Does::Nothing),
        State::OtherLoop => moved_to(in_state(State::Base, heads), Does::Nothing),
    }
}

fn first_row(heads: Heads) -> Moved
    ensures { result ≡ first_row heads }
{
    if heads.atom_site {
        return moved_to(in_state(State::AtomLoop, heads), Does::Row);
    }
    moved_to(in_state(State::OtherLoop, heads), Does::Nothing)
}

// Any other token.
fn other_in(heads: Heads) -> Moved
    ensures { result ≡ other_in heads.state heads }
{
    match heads.state {
        State::Base => moved_to(heads, Does::Nothing),
        State::Header => first_row(heads),
        State::AtomLoop => moved_to(heads, Does::Row),
        State::OtherLoop => moved_to(heads, Does::Nothing),
    }
}

fn read_token(heads: Heads, token: &[u8]) -> Moved
    ensures { result ≡ moved_by_token heads token.now }
{
    if token_values::is_loop(token) {
        return moved_to(no_heads(State::Header), Does::Nothing);
    }
    if token_values::is_cell_item(token) {
        return moved_to(heads, Does::Nothing);
    }
    if token_values::is_item(token) {
        return item_in(heads, token);
    }
    other_in(heads)
}

// A line by its first token, copied to a cell. No token is empty, so there is one exactly where one of some length is found; no word that
// is asked for is as long as the cell, so of a longer token the first bytes decide.
fn read_by_token(heads: Heads, line: &[u8]) -> Moved
    ensures { result ≡ moved_by heads line.now }
{
    let mut cell = [0u8; CELL];
    let n = tokens::tokenize_mmcif_line(line, 0, &mut cell);
    if n == 0 {
        return moved_to(heads, Does::Nothing);
    }
    if n < CELL {
        return read_token(heads, &cell[0..n]);
    }
    read_token(heads, &cell)
}

// A line by its first byte that is no blank, so that rows are told without their first token. An item begins `_`, `loop_` begins `l`, and
// behind a quote either may stand.
fn read_by_byte(heads: Heads, line: &[u8]) -> Moved
    ensures { result ≡ moved_by heads line.now }
{
    let i = tokens::trim_start(line);
    if line.len() <= i {
        return moved_to(heads, Does::Nothing);
    }
    let b = line[i];
    match b {
        b'#' => moved_to(heads, Does::Nothing),
        b'_' | b'l' | b'"' | b'\'' => read_by_token(heads, line),
        _ => other_in(heads),
    }
}

// What a line does; one longer than 2,048 bytes does what its first 2,048 do.
pub fn read_line(heads: Heads, line: &[u8]) -> Moved
    ensures { result ≡ moved_by heads (take longest line.now) }
{
    if line.len() <= LONGEST {
        return read_by_byte(heads, line);
    }
    read_by_byte(heads, &line[0..LONGEST])
}
