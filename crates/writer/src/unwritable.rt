// What no text can hold: refusal 13.
ghost use Rattle.std.specs.Prelude.{◌≡◌, true};
ghost use Rattle.names.specs.Packing.{unpacked};
ghost use Rattle.tokens.specs.Quote.{has};
ghost use Rattle.model.specs.Lent.{lent_in, model_in};
ghost use Rattle.model.specs.WellFormed.{well_formed_in};
ghost use Rattle.writer.specs.Unwritable.{holds_both_quotes, is_unwritable_code, unwritable_in};
ghost use Rattle.writer.specs.PolymerNumbers.{unwritable_by, Walkable};

use crate::polymer_numbers::{Walk, begin_walk, walk_to};
use field_slices::entry_at;
use model::{Atom, Records, Room, chain_part, code_part};
use names::{after_first, first_byte};

// Whether a byte stands in a name: each turn passes the first byte of what is left. A packed name is walked as a number, with no index.
fn holds(name: u64, b: u8) -> bool
    ensures { result ≡ has b (unpacked name) }
{
    let mut rest = name;
    while rest != 0 {
        if first_byte(rest) == b {
            return true;
        }
        rest = after_first(rest);
    }
    false
}

#[tactic(auto, unfolding(crate::specs::Unwritable::holds_both_quotes))]
fn holds_both_quotes(name: u64) -> bool
    ensures { result ≡ holds_both_quotes name }
{
    holds(name, b'\'') && holds(name, b'"')
}

// Blank, tab, quote, `.` or `?`.
#[tactic(auto, unfolding(crate::specs::Unwritable::is_unwritable_code))]
fn is_unwritable_code(code: u8) -> bool
    ensures { result ≡ is_unwritable_code code }
{
    matches!(code, b' ' | b'\t' | b'\'' | b'"' | b'.' | b'?')
}

// An atom in the residue where the walk stands, among the names of the chains.
fn is_unwritable(chains: &[u64], atom: Atom, walk: Walk) -> bool
    ensures { result ≡ unwritable_by chains.now atom walk }
{
    holds_both_quotes(atom.name)
        || holds_both_quotes(walk.residue.name)
        || holds_both_quotes(entry_at(chains, chain_part(atom.key) as usize, 0))
        || is_unwritable_code(code_part(atom.key))
}

// The id of the first atom that no text can hold.
pub(crate) fn first_unwritable(records: Records, counts: Room) -> Option<usize>
    requires { Walkable records.chains.now counts }
    ensures { let l = lent_in records.entry in well_formed_in l counts ≡ true → result ≡ unwritable_in (model_in l counts) }
{
    let chains = &records.chains[..counts.chains];
    let mut walk = begin_walk(records);
    for i in 0..counts.atoms {
        let atom = records.atom_at(i);
        walk = walk_to(records, walk, atom.key);
        if is_unwritable(chains, atom, walk) {
            return Some(i + 1);
        }
    }
    None
}
