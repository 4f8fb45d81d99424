// A value stored at one index of a lent slice.
ghost use Rattle.std.specs.Prelude.{◌≡◌, set};

// An index past the end is passed over.
pub(crate) fn store<T: Copy>(slice: &mut [T], i: usize, value: T)
    ensures { slice.new ≡ set slice.old i value }
{
    if i < slice.len() {
        slice[i] = value;
    }
}
