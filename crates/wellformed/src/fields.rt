// The fields of one record: names, insertion codes, coordinates.
ghost use Rattle.std.specs.Prelude.{◌≡◌};
ghost use Rattle.model.specs.Keys.{code_part};
ghost use Rattle.model.specs.Lent.{point_of};
ghost use Rattle.ascii.specs.Bytes.{is_text_byte};
ghost use Rattle.model.specs.WellFormed.{is_name, is_code, is_near};

use model::code_part;
use names::{after_first, first_byte};
use numbers::is_printable;

// 9 or 32 to 126.
fn is_text_byte(b: u8) -> bool
    ensures { result ≡ is_text_byte b }
{
    matches!(b, 9 | 32..=126)
}

// 1 to 8 bytes, each 9 or 32 to 126: each turn passes the first byte of what is left.
pub(crate) fn is_name(name: u64) -> bool
    ensures { result ≡ is_name name }
{
    if name == 0 {
        return false;
    }
    let mut rest = name;
    while rest != 0 {
        if !is_text_byte(first_byte(rest)) {
            return false;
        }
        rest = after_first(rest);
    }
    true
}

// The insertion code in a residue's key: 0, 9 or 32 to 126.
#[tactic(auto, unfolding(model::specs::WellFormed::is_code))]
pub(crate) fn has_code(key: u64) -> bool
    ensures { result ≡ is_code (code_part key) }
{
    let code = code_part(key);
    code == 0 || is_text_byte(code)
}

// Finite, magnitude at most 1,000,000.
pub(crate) fn is_near(point: [f64; 3]) -> bool
    ensures { result ≡ is_near (point_of point) }
{
    is_printable(point[0]) && is_printable(point[1]) && is_printable(point[2])
}
