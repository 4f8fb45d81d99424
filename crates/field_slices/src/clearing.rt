// A slice with every entry zero from an index on.
ghost use Rattle.std.specs.Prelude.{◌≡◌};
ghost use Rattle.field_slices.specs.Clearing.{cleared};

// What is zero, the caller says: a type of entry brings none. Not `fill`: it asks that a clone does not fail, which Copy does not say.
pub fn clear_from<T: Copy>(slice: &mut [T], keep: usize, zero: T)
    ensures { slice.new ≡ cleared zero keep slice.old }
{
    for i in keep..slice.len() {
        slice[i] = zero;
    }
}
