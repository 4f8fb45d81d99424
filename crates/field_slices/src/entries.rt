// The entry at an index of a slice, or what stands for it where there is none.
ghost use Rattle.std.specs.Prelude.{◌≡◌, get_or};

pub fn entry_at<T: Copy>(slice: &[T], i: usize, otherwise: T) -> T
    ensures { result ≡ get_or slice.now i otherwise }
{
    slice.get(i).copied().unwrap_or(otherwise)
}
