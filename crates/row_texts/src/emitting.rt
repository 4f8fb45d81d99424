// A byte and a word put at a place of a lent buffer. The place after it is told also where it does not fit. Each function answers the next
// place: a buffer and a place in one struct would say the same twice in each clause, as it was and as it is.
#![tactic(auto, using(crate::proofs::EmittedLaws::no_room), unfolding(crate::specs::Emitted::place_after))]

ghost use Rattle.std.specs.Prelude.{◌≡◌, [], ◌∷◌, ◌+◌, ◌^◌, ◌<◌};
ghost use Rattle.row_texts.specs.Emitted.{Emits, place_after};

use ascii::NoRoom;

// The place n bytes on. Past the last place there is none: no buffer reaches so far.
pub(crate) fn place_on(at: usize, n: usize) -> usize
    ensures { at + n < 2 ^ 64 → result ≡ at + n }
{
    at.saturating_add(n)
}

pub(crate) fn place_after(at: usize, placed: Result<usize, NoRoom>) -> usize
    ensures { place_after at placed < 2 ^ 64 → result ≡ place_after at placed }
{
    match placed {
        Ok(next) => next,
        Err(short) => place_on(at, short.needed),
    }
}

pub(crate) fn put_byte(out: &mut [u8], at: usize, b: u8) -> usize
    ensures { Emits out at (b ∷ []) result }
{
    if out.len() <= at {
        return place_on(at, 1);
    }
    out[at] = b;
    at + 1
}

// A word as it is.
pub fn put_word(out: &mut [u8], at: usize, word: &[u8]) -> usize
    ensures { Emits out at word.now result }
{
    let placed = ascii::put_text(word, out, at);
    place_after(at, placed)
}
