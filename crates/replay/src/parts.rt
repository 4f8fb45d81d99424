// A text's parts, each ended by a byte.
ghost use Rattle.std.specs.Prelude.{◌≤◌, length};

// Where the part from index `from` on ends: at the first such byte, or with the text.
pub(crate) fn end_of(text: &[u8], from: usize, byte: u8) -> usize
    requires { from ≤ length text.now }
    ensures { (from ≤ result) × (result ≤ length text.now) }
{
    for i in from..text.len() {
        if text[i] == byte {
            return i;
        }
    }
    text.len()
}
