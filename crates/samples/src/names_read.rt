// Names of 8 and 9 bytes.
use crate::answers::Word;
use crate::tables::show_table;
use std::io;

pub(crate) fn show_all(rt: &impl Print) -> io::Result<()> {
    show_table(
        rt,
        b"\
atom of 8
 HETATM C ABCDEFGH QQQ A 7 1 2 3 1
atom of 9
 HETATM C ABCDEFGHI QQQ A 7 1 2 3 1
residue of 8
 HETATM C CA ABCDEFGH A 7 1 2 3 1
residue of 9
 HETATM C CA ABCDEFGHI A 7 1 2 3 1
chain of 8
 HETATM C CA QQQ ABCDEFGH 7 1 2 3 1
chain of 9
 HETATM C CA QQQ ABCDEFGHI 7 1 2 3 1
quoted atom of 8
 HETATM C 'A B C DE' QQQ A 7 1 2 3 1
residue and chain of 9
 HETATM C CA ABCDEFGHI ABCDEFGHI 7 1 2 3 1
",
        Word::Names,
    )
}
