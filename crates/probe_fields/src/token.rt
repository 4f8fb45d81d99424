// The tokens of a line, what is asked of one, and a name's quoting, through C conventions.
ghost use Rattle.std.specs.Prelude.{◌≡◌, length};
ghost use Rattle.std.specs.Option.{unwrap_or};
ghost use Rattle.std.proofs.lemmas.List.Edits.{sets};
ghost use Rattle.ascii.specs.Output.{placed_of, buffer_after};
ghost use Rattle.tokens.specs.Items.{item_of};
ghost use Rattle.tokens.specs.Quote.{quote_of};
ghost use Rattle.token_values.specs.Sequence.{sequence_of};
ghost use Rattle.tokens.specs.Tokens.{token_at};
ghost use Rattle.probe_fields.specs.Placings.{outcome_of_placed, amount_of_placed};

// The k-th token goes to the front of the cell as far as it fits; its true length, 0 where there is none.
#[unsafe(no_mangle)]
pub extern "C" fn probe_token(line: &[u8], k: usize, cell: &mut [u8]) -> usize
    ensures { (result ≡ length (token_at line.now k)) × (cell.new ≡ sets cell.old 0 (token_at line.now k)) }
{
    tokens::tokenize_mmcif_line(line, k, cell)
}

// Which of the fifteen items the token names, 15 where it names none.
#[unsafe(no_mangle)]
pub extern "C" fn probe_item(token: &[u8]) -> usize
    ensures { result ≡ unwrap_or (item_of token.now) 15 }
{
    tokens::item_of(token).unwrap_or(15)
}

// The sequence number, moved up by 2 ^ 31.
#[unsafe(no_mangle)]
pub extern "C" fn probe_sequence(token: &[u8]) -> u32
    ensures { result ≡ sequence_of token.now }
{
    token_values::sequence_of(token)
}

// 1: no room, and the bytes needed in number; 2: written, and the next place in number.
#[unsafe(no_mangle)]
pub extern "C" fn probe_quote(name: &[u8], out: &mut [u8], at: usize, number: &mut usize) -> u32
    ensures written { (result ≡ outcome_of_placed (placed_of out.old at (quote_of name.now)))
        × (out.new ≡ buffer_after out.old at (quote_of name.now)) }
    ensures told { number.new ≡ amount_of_placed (placed_of out.old at (quote_of name.now)) }
{
    match tokens::quote_string(name, out, at) {
        Ok(next) => {
            *number = next;
            2
        }
        Err(no_room) => {
            *number = no_room.needed;
            1
        }
    }
}
