// The lines of a text, each a part of it: where a line ends, and where the next one begins.
ghost use Rattle.std.specs.Prelude.{◌≡◌, ◌<◌, cond, length, MatchOption};
ghost use Rattle.ascii.specs.Lists.{every};
ghost use Rattle.lines.specs.Lines.{is_no_feed, feed_place, NoFeedBefore, line_length, LineOrEnd};

// A line is the bytes before `end`; the next line begins at `next`.
#[derive(Clone, Copy)]
pub struct Line {
    pub end: usize,
    pub next: usize,
}

// 1 for a 10, else 0.
fn feed_mark(b: u8) -> u8
    ensures { result ≡ cond (is_no_feed b) 0 1 }
{
    if b == b'\n' {
        return 1;
    }
    0
}

// So many bytes are compared at once, by the greatest of their marks, as in `none_odd`.
const BLOCK: usize = 16;

// Whether there is no 10 in a block.
fn has_no_feed(block: &[u8]) -> bool
    ensures { result ≡ every is_no_feed block.now }
{
    let mut most: u8 = 0;
    for b in block {
        let mark = feed_mark(*b);
        if most < mark {
            most = mark;
        }
    }
    most == 0
}

// The end of the blocks that a text begins with and that have no 10.
fn past_blocks(text: &[u8]) -> usize
    ensures { NoFeedBefore text.now result }
{
    let (blocks, _) = text.as_chunks::<BLOCK>();
    let passed = blocks
        .iter()
        .take_while(|block| has_no_feed(*block))
        .count();
    passed * BLOCK
}

// The place of the first 10. Every byte of a text passes here, so nothing else is asked of it, and most are passed in
// blocks.
fn feed_place(text: &[u8]) -> Option<usize>
    ensures { MatchOption result (feed_place text.now ≡ length text.now) (λ i. (i ≡ feed_place text.now) × (i < length text.now)) }
{
    for i in past_blocks(text)..text.len() {
        if text[i] == b'\n' {
            return Some(i);
        }
    }
    None
}

// The length of the line before the 10 at this place: a 13 directly before the 10 belongs to the ending.
fn line_length(text: &[u8], feed: usize) -> usize
    requires { feed < length text.now }
    ensures { result ≡ line_length text.now feed }
{
    if feed == 0 {
        return 0;
    }
    if text[feed - 1] == b'\r' {
        return feed - 1;
    }
    feed
}

// The line that begins at this place; from the text's end on there is none, and the end is answered.
pub(crate) fn line_at(text: &[u8], from: usize) -> Line
    ensures { LineOrEnd text.now from result }
{
    let size = text.len();
    if size <= from {
        return Line {
            end: size,
            next: size,
        };
    }
    let rest = &text[from..];
    let Some(feed) = feed_place(rest) else {
        return Line {
            end: size,
            next: size,
        };
    };
    Line {
        end: from + line_length(rest, feed),
        next: from + feed + 1,
    }
}
