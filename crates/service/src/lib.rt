// Text in, text out, over lent records: what the program and the host call share.
#![tactic(auto)]

mod own;
mod serving;

pub use own::serve_own;
pub use serving::serve;
