// The intake as a program: a text from standard input; what it says to standard output, written anew, or a line that says why not.
#![tactic(auto)]

use service::serve_own;
use std::io;
use std::io::Read;

mod say;

// The most bytes that are read.
const LARGEST: usize = 65536;

fn main(rt: HostRuntime) -> io::Result<()> {
    let mut text = Vec::new(rt.alloc());
    // One byte more, so that a longer text is told.
    rt.stdin().take(65537).read_to_end(&mut text)?;
    if LARGEST < text.len() {
        return say::refused(&rt, 1, 0, 0);
    }
    let mut out = vec![in rt.alloc(); 0; 65536]?;
    let answer = serve_own(&text, &mut out, rows::assuming());
    match answer {
        Ok(served) => say::text(&rt, &out[0..served.written]),
        Err(why) => {
            let reason = why.reason;
            say::refused(&rt, reason.number(), why.line, reason.detail())
        }
    }
}
