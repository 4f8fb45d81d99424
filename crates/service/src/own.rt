// The service with records of its own, as the program and the host call have it: 64 chains, 512 residues, 1,024 atoms.
ghost use Rattle.service.specs.Serving.{ServesOwn};

use crate::serving::serve;
use model::{AtomsMut, ResiduesMut};
use refusals::Refusal;
use results::Served;
use rows::Settings;

pub fn serve_own(text: &[u8], out: &mut [u8], settings: Settings) -> Result<Served, Refusal>
    ensures { ServesOwn settings text.now out.old result out.new }
{
    let mut chains = [0; 64];
    let mut residues = ResiduesMut {
        keys: &mut [0; 512],
        names: &mut [0; 512],
        codes: &mut [0; 512],
        categories: &mut [0; 512],
        positions: &mut [0; 512],
    };
    let mut atoms = AtomsMut {
        keys: &mut [0; 1024],
        names: &mut [0; 1024],
        elements: &mut [0; 1024],
        positions: &mut [[0.0; 3]; 1024],
        occupancies: &mut [0.0; 1024],
    };
    serve(text, out, &mut chains, &mut residues, &mut atoms, settings)
}
