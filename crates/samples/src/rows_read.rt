// Document 01's whole case, and what is easy to get wrong in a row.
use crate::answers::Word;
use crate::tables::show_table;
use std::io;

pub(crate) fn show_all(rt: &impl Print) -> io::Result<()> {
    show_table(
        rt,
        b"\
whole case
 ATOM C CA MSE A 7 1.5 -0.0004 2 0.6
 ATOM C CA MSE A 7 9 9 9 0.6
 HETATM O \"O'\" QQQ A 9 0.25 0 -3 ?
greater occupancy
 ATOM C CA MET A 7 1 2 3 0.4
 ATOM C CA MET A 7 4 5 6 0.6
equal occupancy
 ATOM C CA MET A 7 1 2 3 0.5
 ATOM C CA MET A 7 4 5 6 .50
row without x
 ATOM C CA MET A 7 . 2 3 1
row without z, all else amiss
 ATOM C ABCDEFGHI QQQ A 7 x 1e3 ? inf
",
        Word::Place,
    )?;
    show_table(
        rt,
        b"\
auth columns that hold a point
 _atom_site.label_atom_id
 _atom_site.label_asym_id
 ATOM C . MET . 7 1 2 3 1 CA A
",
        Word::Names,
    )
}
