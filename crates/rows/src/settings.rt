// What a caller may choose: passed by value from the calls down to the rules of a row.
ghost use Rattle.std.specs.Prelude.{◌≡◌};
ghost use Rattle.rows.specs.Settings.{assuming};

// What becomes of an occupancy that is outside the number grammar.
#[derive(Clone, Copy)]
pub enum Unreadable {
    Assumed,
}

#[derive(Clone, Copy)]
pub struct Settings {
    pub occupancy: Unreadable,
}

// As the published Rust reads.
pub fn assuming() -> Settings
    ensures { result ≡ assuming }
{
    Settings {
        occupancy: Unreadable::Assumed,
    }
}
