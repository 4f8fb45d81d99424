// The k-th token of a line, copied to the front of a lent cell: the line is walked byte by byte until the token is whole.
ghost use Rattle.std.specs.Prelude.{◌≡◌, cond, [], eqb, length, get_or, set};
ghost use Rattle.std.proofs.lemmas.List.Edits.{sets};
ghost use Rattle.tokens.specs.Tokens.{act_of, tokens_from, token_at};

use crate::kinds::{Kind, kind_of};
use crate::store::store;
use crate::trim::content_of;

// What a byte does: it goes on the token, ends it, or opens a quote or closes it. The open quote is 0 where none is, as in
// the specs' `scan`: an `Option` would say no more, since 0 is no quote.
#[derive(Clone, Copy)]
pub enum Act {
    Add,
    End,
    Turn(u8),
}

pub(crate) fn act_of(quote: u8, len: usize, b: u8) -> Act
    ensures { result ≡ act_of quote len b }
{
    if quote != 0 {
        if b == quote {
            return Act::Turn(0);
        }
        return Act::Add;
    }
    match kind_of(b) {
        Kind::Blank => Act::End,
        Kind::Quote => {
            if len == 0 {
                return Act::Turn(b);
            }
            Act::Add
        }
        Kind::Plain => Act::Add,
    }
}

// A byte of the token goes into the cell if no token is to pass before it and the cell reaches so far.
fn put(cell: &mut [u8], left: usize, len: usize, b: u8)
    ensures { cell.new ≡ cond (eqb left 0) (set cell.old len b) cell.old }
{
    if left == 0 {
        store(cell, len, b);
    }
}

// The k-th token of a text at whose start no quote is open and no token is begun. left: how many tokens are still to
// pass; len: how many bytes the token so far has.
fn token_from(text: &[u8], k: usize, cell: &mut [u8]) -> usize
    ensures { (result ≡ length (get_or (tokens_from text.now) k [])) × (cell.new ≡ sets cell.old 0 (get_or (tokens_from text.now) k [])) }
{
    let mut quote = 0;
    let mut left = k;
    let mut len = 0;
    for b in text {
        match act_of(quote, len, *b) {
            Act::Add => {
                put(cell, left, len, *b);
                len += 1;
            }
            Act::End if len == 0 => {}
            Act::End if left == 0 => return len,
            Act::End => {
                left -= 1;
                len = 0;
            }
            Act::Turn(q) => {
                quote = q;
            }
        }
    }
    if left == 0 { len } else { 0 }
}

// Copies the k-th token of the line, from 0, to the front of the cell, as far as it fits there. Its true length, or 0
// where the line has no such token: no token is empty.
pub fn tokenize_mmcif_line(line: &[u8], k: usize, cell: &mut [u8]) -> usize
    ensures { (result ≡ length (token_at line.now k)) × (cell.new ≡ sets cell.old 0 (token_at line.now k)) }
{
    token_from(content_of(line), k, cell)
}
