// Where an entry stands among those that ascend, or before which it goes: Ok of its index, or Err of the one before which it goes, as Rust's
// `binary_search` answers.
ghost use Rattle.std.specs.Prelude.{ltb, take};
ghost use Rattle.field_slices.specs.Places.{Found};

// Where key stands among the first n entries, or all of them where there are fewer. The last entry is looked at first, since entries
// nearly always come in order: one that is greater goes behind it, one that is the same is there.
pub fn place_of_key(keys: &[u64], n: usize, key: u64) -> Result<usize, usize>
    ensures { Found ltb (take n keys.now) key result }
{
    let first = &keys[..n.min(keys.len())];
    match first.last() {
        Some(last) if *last < key => Err(first.len()),
        Some(last) if *last == key => Ok(first.len() - 1),
        _ => first.binary_search(&key),
    }
}
