// Where the reading of a text stands between two rows that are kept. Lines are taken without a slice up to the next such row, which waits with its
// line until it is put in at its chain's place. Rows of one chain come in runs, and a run is taken in one call.
ghost use Rattle.std.specs.Prelude.{◌≡◌, List, ℕ, length, set};
ghost use Rattle.model.specs.LentNow.{SameAtoms};
ghost use Rattle.building.specs.Holds.{records_now};
ghost use Rattle.building.specs.Kinds.{KeepsResidues};
ghost use Rattle.mmcif.specs.Stages.{onward_to, number_after, chain_in, run_of, is_own, between_rows, first_stage, GoesOnTo, PutsWaiting, TakesRun, Walks};

use crate::plans::plan_of;
use acts::{Act, Standing, keep_site, pass_act};
use building::none_held;
use line_states::{Heads, start_heads};
use model::{AtomsMut, ResiduesMut, Room, no_records};
use refusals::Refusal;
use rows::{Settings, Site};

// The row that is kept next, with its line.
#[derive(Clone, Copy)]
pub struct Waiting {
    pub line: usize,
    pub site: Site,
}

// The next line's place and number, the state of the headers, what is held, and the row that waits.
#[derive(Clone, Copy)]
pub struct Stage {
    pub at: usize,
    pub number: usize,
    pub heads: Heads,
    pub standing: Standing,
    pub waiting: Option<Waiting>,
}

// Where to read on: a refusal ends the text.
fn onward(halt: Result<(), Refusal>, next: usize, size: usize) -> usize
    ensures { result ≡ onward_to halt next size }
{
    match halt {
        Ok(()) => next,
        Err(_) => size,
    }
}

// The next line's number, up to the greatest that there is.
fn number_after(number: usize) -> usize
    ensures { result ≡ number_after number }
{
    number.saturating_add(1)
}

// The chain of the run that begins with the row that waits.
fn run_of(stage: Stage) -> Option<u64>
    ensures { result ≡ run_of stage.waiting }
{
    match stage.waiting {
        None => None,
        Some(row) => Some(row.site.chain),
    }
}

// Whether the run goes on with the row that waits.
fn is_own(run: Option<u64>, stage: Stage) -> bool
    ensures { result ≡ is_own run stage.waiting }
{
    match (run, stage.waiting) {
        (Some(chain), Some(row)) => row.site.chain == chain,
        _ => false,
    }
}

// Up to the next row that is kept, to a refusal, or to the text's end. By places, since where a line ends is known only once it is found.
fn to_next_row(text: &[u8], settings: Settings, from: Stage) -> Stage
    ensures { GoesOnTo text.now settings (between_rows from) result }
{
    let mut now = Stage {
        waiting: None,
        ..from
    };
    while now.at < text.len() {
        let number = now.number;
        let line = lines::line_from(text, now.at);
        let plan = plan_of(settings, now.heads, &text[now.at..line.end]);
        let standing = pass_act(number, now.standing.held, plan.act);
        now = Stage {
            at: onward(standing.halt, line.next, text.len()),
            number: number_after(number),
            heads: plan.heads,
            standing,
            waiting: None,
        };
        if let Act::Keep(site) = plan.act {
            return Stage {
                waiting: Some(Waiting { line: number, site }),
                ..now
            };
        }
    }
    now
}

// The row that waits is put in where its chain was found. Nothing is done where none waits.
fn put_waiting(
    residues: &mut ResiduesMut<'_>,
    atoms: &mut AtomsMut<'_>,
    room: Room,
    stage: Stage,
    found: usize,
) -> Standing
    ensures same_residues { KeepsResidues residues.old residues.new }
    ensures same_atoms { SameAtoms atoms.old atoms.new }
    ensures puts { (chains : List ℕ) →
        PutsWaiting room found stage result (records_now chains residues.old atoms.old) (records_now (set chains found (chain_in stage.waiting)) residues.new atoms.new) }
{
    let Some(row) = stage.waiting else {
        return stage.standing;
    };
    keep_site(
        residues,
        atoms,
        room,
        row.line,
        stage.standing.held,
        found,
        row.site,
    )
}

// The row that waits and all that follow on it in its chain; where none waits, up to the first row. Each step is called from one place alone, so that the compiler builds all of them into
// this loop: a plan, a site or a stage that comes back from a call costs more than the work on it. Text, settings and room stay side by side, since each step takes but some of them.
fn walk(
    text: &[u8],
    residues: &mut ResiduesMut<'_>,
    atoms: &mut AtomsMut<'_>,
    settings: Settings,
    room: Room,
    stage: Stage,
    place: usize,
) -> Stage
    ensures same_residues { KeepsResidues residues.old residues.new }
    ensures same_atoms { SameAtoms atoms.old atoms.new }
    ensures walks { (chains : List ℕ) →
        Walks text.now settings room place stage result (records_now chains residues.old atoms.old) (records_now chains residues.new atoms.new) }
{
    let run = run_of(stage);
    let mut now = stage;
    loop {
        let kept = put_waiting(residues, atoms, room, now, place);
        let on = Stage {
            at: onward(kept.halt, now.at, text.len()),
            standing: kept,
            ..now
        };
        now = to_next_row(text, settings, on);
        if !is_own(run, now) {
            return now;
        }
    }
}

// The first row of the text, unless the text was refused before all lines. Nothing is put in before it, so the slices are empty.
pub fn first_row(text: &[u8], settings: Settings, halt: Result<(), Refusal>) -> Stage
    ensures { GoesOnTo text.now settings (first_stage halt (length text.now)) result }
{
    let first = Stage {
        at: onward(halt, 0, text.len()),
        number: 1,
        heads: start_heads(),
        standing: Standing {
            held: none_held(),
            halt,
        },
        waiting: None,
    };
    let mut residues = ResiduesMut {
        keys: &mut [],
        names: &mut [],
        codes: &mut [],
        categories: &mut [],
        positions: &mut [],
    };
    let mut atoms = AtomsMut {
        keys: &mut [],
        names: &mut [],
        elements: &mut [],
        positions: &mut [],
        occupancies: &mut [],
    };
    walk(
        text,
        &mut residues,
        &mut atoms,
        settings,
        no_records(),
        first,
        0,
    )
}

// The row that waits and all that follow on it in its chain, whose name stands at its place in the chain list already.
pub fn take_run(
    text: &[u8],
    residues: &mut ResiduesMut<'_>,
    atoms: &mut AtomsMut<'_>,
    settings: Settings,
    room: Room,
    stage: Stage,
    place: usize,
) -> Stage
    ensures same_residues { KeepsResidues residues.old residues.new }
    ensures same_atoms { SameAtoms atoms.old atoms.new }
    ensures takes { (chains : List ℕ) →
        TakesRun text.now settings room place stage result (records_now chains residues.old atoms.old) (records_now chains residues.new atoms.new) }
{
    walk(text, residues, atoms, settings, room, stage, place)
}
