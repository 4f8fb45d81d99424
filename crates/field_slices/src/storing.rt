// A value stored at one index of a slice; nothing changes where there is no such entry.
ghost use Rattle.std.specs.Prelude.{◌≡◌, set};

pub fn store<T: Copy>(slice: &mut [T], i: usize, v: T)
    ensures { slice.new ≡ set slice.old i v }
{
    if i < slice.len() {
        slice[i] = v;
    }
}
