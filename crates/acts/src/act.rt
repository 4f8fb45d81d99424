// What one line asks for, or one row where a row may have several lines.
use refusals::Reason;
use rows::Site;

#[derive(Clone, Copy)]
pub enum Act {
    Pass,
    Skip,
    Keep(Site),
    Refuse(Reason),
}
