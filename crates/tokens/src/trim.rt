// A line without the blanks at its ends: where it starts, where it ends, and what is left of it.
ghost use Rattle.std.specs.Prelude.{◌≡◌, ◌≤◌, length, take, drop};
ghost use Rattle.tokens.specs.Trim.{trim_start, trim_end, content_of};

use crate::kinds::is_blank;

// The place of the first byte that is no blank, or the end.
pub fn trim_start(line: &[u8]) -> usize
    ensures { (result ≤ length line.now) × (drop result line.now ≡ trim_start line.now) }
{
    line.iter().take_while(|b| is_blank(**b)).count()
}

// The place after the last byte that is no blank, or the start.
pub(crate) fn trim_end(line: &[u8]) -> usize
    ensures { (result ≤ length line.now) × (take result line.now ≡ trim_end line.now) }
{
    line.len() - line.iter().rev().take_while(|b| is_blank(**b)).count()
}

// What of a line its tokens are made of: a comment has none.
pub(crate) fn content_of(line: &[u8]) -> &[u8]
    ensures { result.now ≡ content_of line.now }
{
    let start = trim_start(line);
    let rest = &line[start..];
    let end = trim_end(rest);
    let text = &rest[0..end];
    if ascii::byte_at(text, 0) == b'#' {
        return &text[0..0];
    }
    text
}
