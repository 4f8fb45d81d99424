// The longest line: how many bytes one has at most, without its ending.
pub const LONGEST: usize = 2048;
