// What else a text is refused for, with every detail, and which refusal comes first. A text that is too long, refusal 1, is no sample
// here: it is longer than what a program can lend.
use crate::answers::Word;
use crate::tables::show_table;
use std::io;

pub(crate) fn show_all(rt: &impl Print) -> io::Result<()> {
    show_table(
        rt,
        b"\
byte 0
 \x00
byte 11
 data_x\x0b
byte 31
 #\x1f
byte 127
 data_x
 \x7f
byte 255
 data_x\r
 \xff
13 before no 10
 data_x
 \ra
13 13 10
 data_x\r\r
byte 0 behind a row that earns 5
 loop_
 _atom_site.id
 1
 \x00
row without z
 ATOM C CA MET A 7 1 2
row without occupancy
 ATOM C CA MET A 7 1 2 3
short row without x
 ATOM C CA MET A 7 . 2 3
x outside the grammar
 ATOM C CA MET A 7 x 2 3 1
y outside the grammar
 ATOM C CA MET A 7 1 1.2.3 3 1
z outside the grammar
 ATOM C CA MET A 7 1 2 --3 1
x beyond reach
 ATOM C CA MET A 7 nan 2 3 1
y beyond reach
 ATOM C CA MET A 7 1 -1000000.5 3 1
z beyond reach
 ATOM C CA MET A 7 1 2 1e0 1
occupancy beyond reach
 ATOM C CA MET A 7 1 2 3 -inf
x beyond reach, y outside
 ATOM C CA MET A 7 1e3 y 3 1
x outside, y beyond reach
 ATOM C CA MET A 7 x 1e3 3 1
occupancy beyond reach, long name
 ATOM C ABCDEFGHI MET A 7 1 2 3 1e3
unknown residue
 ATOM C CA QQQ A 7 1 2 3 1
unknown residue met first
 ATOM C CA QQQ A 9 1 2 3 1
 ATOM C CA MET A -7 1 2 3 1
unknown residue of another chain
 ATOM C CA MET A 5 1 2 3 1
 ATOM C CA his B 1 1 2 3 1
 ATOM C CA ALA A 6 1 2 3 1
unknown residue before a short row
 ATOM C CA QQQ A 7 1 2 3 1
 ATOM
13 at the end
 data_x\r",
        Word::Nothing,
    )
}
