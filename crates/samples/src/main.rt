// Document 01's samples. Those to run are run here, and what is written is held to the file stdout; those to prove stand in proofs/Proved.
#![tactic(auto)]

use std::io;

mod answers;
mod columns_missing;
mod coordinates_read;
mod headers_read;
mod lines_read;
mod names_read;
mod numbers_read;
mod records_cleared;
mod refused;
mod rows_read;
mod say;
mod shortest;
mod tables;
mod text_read;
mod texts;
mod zeros;

fn main(rt: HostRuntime) -> io::Result<()> {
    numbers_read::show_all(&rt)?;
    lines_read::show_all(&rt)?;
    headers_read::show_all(&rt)?;
    names_read::show_all(&rt)?;
    coordinates_read::show_all(&rt)?;
    columns_missing::show_all(&rt)?;
    refused::show_all(&rt)?;
    rows_read::show_all(&rt)?;
    shortest::show_all(&rt)?;
    records_cleared::show_all(&rt)
}
