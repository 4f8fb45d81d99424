// A name written so that it is read as one token: bare, or in quotes.
ghost use Rattle.std.specs.Prelude.{◌≡◌, ◌+◌, ◌≤◌, length};
ghost use Rattle.ascii.specs.Output.{Stored, placed_of, buffer_after};
ghost use Rattle.tokens.specs.Quote.{has, all_plain, quote_for, in_quotes, quote_of};

use crate::kinds::is_plain;
use ascii::{NoRoom, put_text};

fn has_byte(s: &[u8], b: u8) -> bool
    ensures { result ≡ has b s.now }
{
    s.iter().any(|c| *c == b)
}

fn all_plain(s: &[u8]) -> bool
    ensures { result ≡ all_plain s.now }
{
    s.iter().all(|b| is_plain(*b))
}

fn quote_for(name: &[u8]) -> u8
    ensures { result ≡ quote_for name.now }
{
    if has_byte(name, b'\'') && !has_byte(name, b'"') {
        b'"'
    } else {
        b'\''
    }
}

fn put_in_quotes(name: &[u8], q: u8, out: &mut [u8], at: usize) -> usize
    requires { at + (length name.now + 2) ≤ length out.old }
    ensures { Stored out.old at (in_quotes q name.now) out.new result }
{
    out[at] = q;
    // The name fits, so it is put.
    let _ = put_text(name, out, at + 1);
    let end = at + 1 + name.len();
    out[end] = q;
    end + 1
}

// The name between two quotes, where they fit.
fn put_quoted(name: &[u8], q: u8, out: &mut [u8], at: usize) -> Result<usize, NoRoom>
    ensures { (result ≡ placed_of out.old at (in_quotes q name.now)) × (out.new ≡ buffer_after out.old at (in_quotes q name.now)) }
{
    let n = name.len() + 2;
    if !ascii::fits_at(out.len(), at, n) {
        return Err(NoRoom { needed: n });
    }
    Ok(put_in_quotes(name, q, out, at))
}

// Puts the name as it is written into the buffer from index at on; where it does not fit, no byte changes.
pub fn quote_string(name: &[u8], out: &mut [u8], at: usize) -> Result<usize, NoRoom>
    ensures { (result ≡ placed_of out.old at (quote_of name.now)) × (out.new ≡ buffer_after out.old at (quote_of name.now)) }
{
    if name.len() == 0 {
        return put_text(b"?", out, at);
    }
    if all_plain(name) {
        return put_text(name, out, at);
    }
    put_quoted(name, quote_for(name), out, at)
}
