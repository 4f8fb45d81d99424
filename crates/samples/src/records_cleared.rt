// Records that are dirty before a reading: past the counts they are zero after it, and all of them are after a refusal.
use crate::answers::Word;
use crate::tables::show_table;
use std::io;

pub(crate) fn show_all(rt: &impl Print) -> io::Result<()> {
    show_table(
        rt,
        b"\
dirty before no row
dirty before a byte outside
 \x00
dirty before a row
 ATOM C CA MET A 7 1 2 3 1
dirty before two chains
 ATOM C CA MET A 7 1 2 3 1
 ATOM N N MET A 7 1 2 3 1
 HETATM ZN ZN ZN B 1 1 2 3 1
dirty before a short row
 ATOM C CA MET A 7 1 2 3 1
 ATOM N N MET A 7 1 2 3
dirty before an unknown residue
 ATOM C CA MET A 7 1 2 3 1
 ATOM N N QQQ A 8 1 2 3 1
",
        Word::Rest,
    )
}
