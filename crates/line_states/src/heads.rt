// The state that a reader is in, and what the headers of its loop have said.
ghost use Rattle.std.specs.Prelude.{◌≡◌, ◌<◌};
ghost use Rattle.line_states.specs.Heads.{no_heads, start_heads, in_state, with_item, with_header};

use rows::Columns;

#[derive(Clone, Copy)]
pub enum State {
    Base,
    Header,
    AtomLoop,
    OtherLoop,
}

#[derive(Clone, Copy)]
pub struct Heads {
    pub state: State,
    pub columns: Columns,
    // How many headers the loop has so far.
    pub headers: usize,
    // Whether some header of the loop begins `_atom_site.`.
    pub atom_site: bool,
}

pub(crate) fn no_heads(state: State) -> Heads
    ensures { result ≡ no_heads state }
{
    Heads {
        state,
        columns: rows::no_columns(),
        headers: 0,
        atom_site: false,
    }
}

// Before the first line.
pub fn start_heads() -> Heads
    ensures { result ≡ start_heads }
{
    no_heads(State::Base)
}

pub(crate) fn in_state(state: State, heads: Heads) -> Heads
    ensures { result ≡ in_state state heads }
{
    Heads { state, ..heads }
}

// One of the fifteen items takes the column; any other takes none.
fn with_item(columns: Columns, item: Option<usize>, column: u8) -> Columns
    ensures { result ≡ with_item columns item column }
{
    match item {
        Some(place) => rows::with_column(columns, place, column),
        None => columns,
    }
}

// A header takes the next column, also where its item does not matter.
pub(crate) fn with_header(heads: Heads, token: &[u8]) -> Heads
    requires { heads.headers < 64 }
    ensures { result ≡ with_header heads token.now }
{
    let atom_site = token_values::is_atom_site_item(token);
    Heads {
        columns: with_item(heads.columns, tokens::item_of(token), heads.headers as u8),
        headers: heads.headers + 1,
        atom_site: heads.atom_site || atom_site,
        ..heads
    }
}
