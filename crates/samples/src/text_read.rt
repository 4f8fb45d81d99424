// A text read into dirty records: what is answered, what the first records hold, and whether what is past the counts is zero.
use crate::zeros::are_zero;
use building::Counts;
use field_slices::entry_at;
use model::{AtomsMut, ResiduesMut};
use refusals::Refusal;

#[derive(Clone, Copy)]
pub(crate) struct Reading {
    pub answer: Result<Counts, Refusal>,
    pub chain: u64,
    pub residue: u64,
    pub atom: u64,
    pub position: [f64; 3],
    pub occupancy: f64,
    pub rest_is_zero: bool,
}

const DIRTY: u64 = 0xa5a5_a5a5_a5a5_a5a5;

const DIRTY_BYTE: u8 = 0xa5;

const NO_RECORDS: Counts = Counts {
    chains: 0,
    residues: 0,
    atoms: 0,
    rows: 0,
    skipped: 0,
    outdone: 0,
    assumed: 0,
};

pub(crate) fn read(text: &[u8]) -> Reading {
    let mut chains = [DIRTY; 8];
    let mut residues = ResiduesMut {
        keys: &mut [DIRTY; 8],
        names: &mut [DIRTY; 8],
        codes: &mut [DIRTY_BYTE; 8],
        categories: &mut [DIRTY_BYTE; 8],
        positions: &mut [DIRTY_BYTE; 8],
    };
    let mut atoms = AtomsMut {
        keys: &mut [DIRTY; 8],
        names: &mut [DIRTY; 8],
        elements: &mut [DIRTY_BYTE; 8],
        positions: &mut [[-5.5; 3]; 8],
        occupancies: &mut [-5.5; 8],
    };
    let answer = reader::read_by_names(
        text,
        &mut chains,
        &mut residues,
        &mut atoms,
        rows::assuming(),
    );
    Reading {
        answer,
        chain: chains[0],
        residue: entry_at(residues.names, 0, 0),
        atom: entry_at(atoms.names, 0, 0),
        position: entry_at(atoms.positions, 0, [0.0; 3]),
        occupancy: entry_at(atoms.occupancies, 0, 0.0),
        rest_is_zero: are_zero(&chains, &residues, &atoms, answer.unwrap_or(NO_RECORDS)),
    }
}
