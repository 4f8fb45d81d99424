// What the service answers: what was served, or a refusal, after which no byte was written and every record is zero.
use building::Counts;

#[derive(Clone, Copy)]
pub struct Served {
    // How many bytes were written.
    pub written: usize,
    // The counts of the reading.
    pub counts: Counts,
}
