// One byte of a text, wherever it is asked for.
ghost use Rattle.std.specs.Prelude.{◌≡◌, get_or};

// The byte at index i; 0 past the end, so that no caller has to look at the length first.
pub fn byte_at(s: &[u8], i: usize) -> u8
    ensures { result ≡ get_or s.now i 0 }
{
    s.get(i).copied().unwrap_or(0)
}
