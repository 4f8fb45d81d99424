// The service through C conventions: each slice is a pointer and a length. Nothing is kept after a call, and nothing is allocated.
ghost use Rattle.std.specs.Prelude.{◌≡◌, ◌≤◌, length, take};
ghost use Rattle.chains.specs.Names.{names_at};
ghost use Rattle.field_slices.specs.Slice.{held};
ghost use Rattle.model.specs.Lent.{lent_by};
ghost use Rattle.model.specs.LentNow.{lent_now, SameResidues, SameAtoms};
ghost use Rattle.structure_intake.specs.Calls.{renewed_in, Calls, CallsOwn};

use chains::{Chain, Names, no_names, store_names};
use model::{AtomsMut, ResiduesMut};
use results::{is_whole, put_numbers, status_of};
use service::{serve, serve_own};

// The host call's own refusal.
const BAD_RESULT: u32 = 26;

// How many chain records are written anew, of so many: none where the result is refused.
fn renewed(result_size: usize, size: usize) -> usize
    ensures { result ≡ renewed_in result_size size }
{
    if result_size == 28 {
        return size;
    }
    0
}

// The call by names, in the first so many. The names come as a slice, of which a part is lent on.
fn call_first(
    text: &[u8],
    out: &mut [u8],
    res: &mut [u8],
    names: &mut [u64],
    size: usize,
    residues: &mut ResiduesMut<'_>,
    atoms: &mut AtomsMut<'_>,
) -> u32
    requires { size ≤ length names.old }
    ensures same_residues { SameResidues residues.old residues.new }
    ensures same_atoms { SameAtoms atoms.old atoms.new }
    ensures calls { Calls (lent_now (take size names.old) residues.old atoms.old) text.now out.old res.old result (lent_now (take size names.new) residues.new atoms.new) out.new res.new }
{
    if !is_whole(res) {
        return BAD_RESULT;
    }
    let answer = serve(
        text,
        out,
        &mut names[0..size],
        residues,
        atoms,
        rows::assuming(),
    );
    put_numbers(res, answer);
    status_of(answer)
}

// The same in an array of 4,096: of a longer chain list a model uses no more records.
fn call_into(
    text: &[u8],
    out: &mut [u8],
    res: &mut [u8],
    names: &mut Names,
    size: usize,
    residues: &mut ResiduesMut<'_>,
    atoms: &mut AtomsMut<'_>,
) -> u32
    ensures same_residues { SameResidues residues.old residues.new }
    ensures same_atoms { SameAtoms atoms.old atoms.new }
    ensures calls { Calls (lent_now (take size names.old) residues.old atoms.old) text.now out.old res.old result (lent_now (take size names.new) residues.new atoms.new) out.new res.new }
{
    let size = chains::kept(size);
    call_first(text, out, res, names, size, residues, atoms)
}

// The service in the caller's records: the room is by the shortest slice of each kind. After 0 they hold the model, after 26 all is as it was,
// and after any other refusal every record is zero. The chain records are written last, from an array of names.
#[unsafe(no_mangle)]
pub extern "C" fn structure_intake_lent<'a>(
    text: &[u8],
    out: &mut [u8],
    res: &mut [u8],
    chains: &mut [Chain],
    residue_keys: &'a mut [u64],
    residue_names: &'a mut [u64],
    residue_codes: &'a mut [u8],
    residue_categories: &'a mut [u8],
    residue_positions: &'a mut [u8],
    atom_keys: &'a mut [u64],
    atom_names: &'a mut [u64],
    elements: &'a mut [u8],
    positions: &'a mut [[f64; 3]],
    occupancies: &'a mut [f64],
) -> u32
    ensures { let l = lent_by (names_at chains) residue_keys residue_names residue_codes residue_categories residue_positions atom_keys atom_names elements positions occupancies in
        let o = held out in let n = held res in Calls l.entry text.now o.entry n.entry result l.exit o.exit n.exit }
{
    let mut names = no_names();
    let size = chains.len();
    let count = renewed(res.len(), size);
    let mut residues = ResiduesMut {
        keys: residue_keys,
        names: residue_names,
        codes: residue_codes,
        categories: residue_categories,
        positions: residue_positions,
    };
    let mut atoms = AtomsMut {
        keys: atom_keys,
        names: atom_names,
        elements,
        positions,
        occupancies,
    };
    let status = call_into(text, out, res, &mut names, size, &mut residues, &mut atoms);
    store_names(chains, &names, count);
    status
}

// The service with records of its own.
#[unsafe(no_mangle)]
pub extern "C" fn structure_intake(text: &[u8], out: &mut [u8], res: &mut [u8]) -> u32
    ensures { let o = held out in let n = held res in CallsOwn text.now o.entry n.entry result o.exit n.exit }
{
    if !is_whole(res) {
        return BAD_RESULT;
    }
    let answer = serve_own(text, out, rows::assuming());
    put_numbers(res, answer);
    status_of(answer)
}
