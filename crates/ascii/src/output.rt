// A text put at a place of a lent buffer: whole where it fits, and else not a byte of it.
ghost use Rattle.std.specs.Prelude.{◌≡◌, ◌+◌, leb};
ghost use Rattle.ascii.specs.Output.{placed_of, buffer_after};

// Why a text was not put: it needs so many bytes. The buffer is as it was.
#[derive(Clone, Copy)]
pub struct NoRoom {
    pub needed: usize,
}

// Whether n bytes fit from index at on, in a buffer of size bytes. Asked so that no sum can wrap.
pub fn fits_at(size: usize, at: usize, n: usize) -> bool
    ensures { result ≡ leb (at + n) size }
{
    at <= size && n <= size - at
}

// The text as it is, from index at on, where it fits; the answer is the place after it.
pub fn put_text(text: &[u8], out: &mut [u8], at: usize) -> Result<usize, NoRoom>
    ensures { (result ≡ placed_of out.old at text.now) × (out.new ≡ buffer_after out.old at text.now) }
{
    let n = text.len();
    if !fits_at(out.len(), at, n) {
        return Err(NoRoom { needed: n });
    }
    // Byte by byte, since `copy_from_slice` becomes a call of C's `memmove`.
    for i in 0..n {
        out[at + i] = text[i];
    }
    Ok(at + n)
}
