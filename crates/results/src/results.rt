// What the host call answers: a number, and seven numbers in a lent result, four bytes each, the lowest first.
ghost use Rattle.std.specs.Prelude.{◌≡◌, true, ◌+◌, ◌≤◌, length};
ghost use Rattle.std.proofs.lemmas.List.Edits.{sets};
ghost use Rattle.results.specs.Results.{status_in, numbers_in, little_endian, bytes_of, is_whole, told_in};

use crate::answers::Served;
use refusals::Refusal;

pub fn is_whole(res: &[u8]) -> bool
    ensures { result ≡ is_whole res.now }
{
    res.len() == 28
}

pub fn status_of(answer: Result<Served, Refusal>) -> u32
    ensures { result ≡ status_in answer }
{
    match answer {
        Ok(_) => 0,
        Err(why) => u32::from(why.reason.number()),
    }
}

// Line, detail, bytes written, rows, skipped, outdone and assumed.
fn numbers_of(answer: Result<Served, Refusal>) -> [usize; 7]
    ensures { result ≡ numbers_in answer }
{
    match answer {
        Ok(served) => [
            0,
            0,
            served.written,
            served.counts.rows,
            served.counts.skipped,
            served.counts.outdone,
            served.counts.assumed,
        ],
        Err(why) => [why.line, why.reason.detail(), 0, 0, 0, 0, 0],
    }
}

fn put_number(res: &mut [u8], at: usize, n: usize)
    requires { at + 4 ≤ length res.old }
    ensures { res.new ≡ sets res.old at (little_endian n) }
{
    let bytes = n.to_le_bytes();
    res[at..at + 4].copy_from_slice(&bytes[0..4]);
}

fn put_whole(res: &mut [u8], answer: Result<Served, Refusal>)
    requires { is_whole res.old ≡ true }
    ensures { res.new ≡ bytes_of (numbers_in answer) }
{
    let numbers = numbers_of(answer);
    for (k, n) in numbers.iter().enumerate() {
        put_number(res, 4 * k, *n);
    }
}

// A result of another length stays as it was.
pub fn put_numbers(res: &mut [u8], answer: Result<Served, Refusal>)
    ensures { res.new ≡ told_in res.old answer }
{
    if is_whole(res) {
        put_whole(res, answer);
    }
}
