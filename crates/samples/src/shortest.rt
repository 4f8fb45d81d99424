// Room by the shortest slice: each of the eleven slices in turn is shorter by one entry than what is read needs.
ghost use Rattle.std.specs.Prelude.{◌≤◌};

use crate::answers::say_sample;
use crate::say::say;
use crate::texts::put_atoms;
use building::Counts;
use model::{AtomsMut, ResiduesMut};
use refusals::Refusal;
use std::io;

fn length_of(field: usize, shortest: usize, needed: usize) -> usize
    ensures { result ≤ needed }
{
    if field == shortest {
        needed.saturating_sub(1)
    } else {
        needed
    }
}

fn read(text: &[u8], shortest: usize) -> Result<Counts, Refusal> {
    let mut chains = [0; 2];
    let mut residues = ResiduesMut {
        keys: &mut [0; 3][..length_of(1, shortest, 3)],
        names: &mut [0; 3][..length_of(2, shortest, 3)],
        codes: &mut [0; 3][..length_of(3, shortest, 3)],
        categories: &mut [0; 3][..length_of(4, shortest, 3)],
        positions: &mut [0; 3][..length_of(5, shortest, 3)],
    };
    let mut atoms = AtomsMut {
        keys: &mut [0; 4][..length_of(6, shortest, 4)],
        names: &mut [0; 4][..length_of(7, shortest, 4)],
        elements: &mut [0; 4][..length_of(8, shortest, 4)],
        positions: &mut [[0.0; 3]; 4][..length_of(9, shortest, 4)],
        occupancies: &mut [0.0; 4][..length_of(10, shortest, 4)],
    };
    reader::read_by_names(
        text,
        &mut chains[..length_of(0, shortest, 2)],
        &mut residues,
        &mut atoms,
        rows::assuming(),
    )
}

fn show(rt: &impl Print, text: &[u8], shortest: usize, name: &[u8]) -> io::Result<()> {
    say_sample(rt, name, read(text, shortest))?;
    say(rt, b"\n")
}

fn show_each(rt: &impl Print, text: &[u8]) -> io::Result<()> {
    show(rt, text, 11, b"no slice shorter")?;
    show(rt, text, 0, b"shortest chains")?;
    show(rt, text, 1, b"shortest residue keys")?;
    show(rt, text, 2, b"shortest residue names")?;
    show(rt, text, 3, b"shortest residue codes")?;
    show(rt, text, 4, b"shortest residue categories")?;
    show(rt, text, 5, b"shortest residue positions")?;
    show(rt, text, 6, b"shortest atom keys")?;
    show(rt, text, 7, b"shortest atom names")?;
    show(rt, text, 8, b"shortest elements")?;
    show(rt, text, 9, b"shortest positions")?;
    show(rt, text, 10, b"shortest occupancies")
}

// Two chains, three residues and four atoms. The second chain is met in line 13, the third residue in line 14, the fourth atom in line
// 15; the row of line 16 takes the place of that of line 15.
pub(crate) fn show_all(rt: &impl Print) -> io::Result<()> {
    let mut buffer = [0u8; 512];
    let length = put_atoms(
        &mut buffer,
        b"\
ATOM C CA MET A 7 1 2 3 1
HETATM O O HOH B 1 1 2 3 1
ATOM C CA GLY A 8 1 2 3 1
ATOM N N GLY A 8 1 2 3 0.4
ATOM N N GLY A 8 4 5 6 0.6
",
    );
    if length <= 512 {
        show_each(rt, &buffer[0..length])?;
    }
    Ok(())
}
