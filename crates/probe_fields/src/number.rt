// The numbers through C conventions: what an answer holds is returned in parts.
ghost use Rattle.std.specs.Prelude.{◌≡◌};
ghost use Rattle.numbers.specs.Reading.{number_of};
ghost use Rattle.numbers.specs.Writing.{printed_of, after_printing};
ghost use Rattle.probe_fields.specs.Numbers.{kind_of, value_of, outcome_of, amount_of};

use numbers::{NumberError, PrintError};

// 0: outside the grammar; 1: beyond reach; 2: a value.
#[unsafe(no_mangle)]
pub extern "C" fn probe_number_kind(text: &[u8]) -> u32
    ensures { result ≡ kind_of (number_of text.now) }
{
    match numbers::read_number(text) {
        Err(NumberError::OutsideGrammar) => 0,
        Err(NumberError::BeyondReach) => 1,
        Ok(_) => 2,
    }
}

// The value; 0.0 where there is none.
#[unsafe(no_mangle)]
pub extern "C" fn probe_number_value(text: &[u8]) -> f64
    ensures { result ≡ value_of (number_of text.now) }
{
    match numbers::read_number(text) {
        Ok(x) => x,
        Err(_) => 0.0,
    }
}

// 0: beyond reach; 1: no room, and the bytes needed in number; 2: written, and the next place in number.
#[unsafe(no_mangle)]
pub extern "C" fn probe_write_thousandths(
    out: &mut [u8],
    at: usize,
    x: f64,
    number: &mut usize,
) -> u32
    ensures written { (result ≡ outcome_of (printed_of 3 x out.old at)) × (out.new ≡ after_printing 3 x out.old at) }
    ensures told { number.new ≡ amount_of (printed_of 3 x out.old at) }
{
    match numbers::write_thousandths(out, at, x) {
        Ok(next) => {
            *number = next;
            2
        }
        Err(PrintError::NoRoom(no_room)) => {
            *number = no_room.needed;
            1
        }
        Err(PrintError::BeyondReach) => {
            *number = 0;
            0
        }
    }
}
