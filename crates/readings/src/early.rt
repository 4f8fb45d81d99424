// What refuses a text before all lines: its length, then its first byte outside the domain.
ghost use Rattle.std.specs.Prelude.{◌≡◌};
ghost use Rattle.readings.specs.Closing.{halted_early};

use lines::first_outside;
use refusals::{Reason, Refusal};

// The largest text.
const LARGEST: usize = 16777216;

pub fn halted_early(text: &[u8]) -> Result<(), Refusal>
    ensures { result ≡ halted_early text.now }
{
    if LARGEST < text.len() {
        return Err(Refusal {
            line: 0,
            reason: Reason::TextTooLong,
        });
    }
    if let Some(outside) = first_outside(text) {
        return Err(Refusal {
            line: outside.line,
            reason: Reason::OutsideDomain { byte: outside.byte },
        });
    }
    Ok(())
}
