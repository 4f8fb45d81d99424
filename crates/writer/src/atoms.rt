// The atom loop: a row for each atom.
ghost use Rattle.std.specs.Prelude.{◌≡◌, true};
ghost use Rattle.model.specs.Lent.{lent_in, model_in};
ghost use Rattle.model.specs.WellFormed.{well_formed_in};
ghost use Rattle.row_texts.specs.Emitted.{Emits};
ghost use Rattle.writer.specs.Text.{atom_loop};
ghost use Rattle.writer.specs.PolymerNumbers.{row_by, atoms_of, Walkable};

use crate::headers::put_atom_headers;
use crate::polymer_numbers::{Walk, begin_walk, walk_to};
use field_slices::entry_at;
use model::{Atom, Records, Room, chain_part, code_part, is_polymer, sequence_part};
use row_texts::{AtomRow, put_atom_row, put_word};

// The row of an atom in the residue where the walk stands, among the names of the chains.
fn atom_row(chains: &[u64], id: u64, atom: Atom, walk: Walk) -> AtomRow
    ensures { result ≡ row_by chains.now id atom walk }
{
    let chain = chain_part(atom.key);
    AtomRow {
        polymer: is_polymer(walk.residue.code),
        id,
        element: atom.element,
        atom: atom.name,
        residue: walk.residue.name,
        chain: entry_at(chains, chain as usize, 0),
        entity: chain + 1,
        number: walk.number,
        insertion_code: code_part(atom.key),
        position: atom.position,
        sequence: sequence_part(atom.key),
    }
}

// By indices: in records that are not well formed a slice may be shorter than the count, and what is past its end counts as 0.
fn put_atom_rows(out: &mut [u8], at: usize, records: Records, counts: Room) -> usize
    requires { Walkable records.chains.now counts }
    ensures { let l = lent_in records.entry in well_formed_in l counts ≡ true → Emits out at (atoms_of (model_in l counts)) result }
{
    let chains = &records.chains[..counts.chains];
    let mut place = at;
    let mut walk = begin_walk(records);
    for i in 0..counts.atoms {
        let atom = records.atom_at(i);
        walk = walk_to(records, walk, atom.key);
        let row = atom_row(chains, i as u64 + 1, atom, walk);
        place = put_atom_row(out, place, row);
    }
    place
}

pub(crate) fn put_atom_loop(out: &mut [u8], at: usize, records: Records, counts: Room) -> usize
    requires { Walkable records.chains.now counts }
    ensures { let l = lent_in records.entry in well_formed_in l counts ≡ true → Emits out at (atom_loop (atoms_of (model_in l counts))) result }
{
    let at = put_atom_headers(out, at);
    let at = put_atom_rows(out, at, records, counts);
    put_word(out, at, b"#\n")
}
