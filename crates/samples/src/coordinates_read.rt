// The samples of numbers as a coordinate and as an occupancy.
use crate::answers::Word;
use crate::tables::show_table;
use std::io;

pub(crate) fn show_all(rt: &impl Print) -> io::Result<()> {
    show_table(
        rt,
        b"\
x 1000000
 ATOM C CA MET A 7 1000000 2 3 1
x 1000000.1
 ATOM C CA MET A 7 1000000.1 2 3 1
x 123456.789012345
 ATOM C CA MET A 7 123456.789012345 2 3 1
x 123456.7890123456
 ATOM C CA MET A 7 123456.7890123456 2 3 1
x 1e3
 ATOM C CA MET A 7 1e3 2 3 1
x 5.
 ATOM C CA MET A 7 5. 2 3 1
x .5
 ATOM C CA MET A 7 .5 2 3 1
x 0,5
 ATOM C CA MET A 7 0,5 2 3 1
occupancy 1000000
 ATOM C CA MET A 7 1 2 3 1000000
occupancy 1000000.1
 ATOM C CA MET A 7 1 2 3 1000000.1
occupancy 123456.789012345
 ATOM C CA MET A 7 1 2 3 123456.789012345
occupancy 123456.7890123456
 ATOM C CA MET A 7 1 2 3 123456.7890123456
occupancy 1e3
 ATOM C CA MET A 7 1 2 3 1e3
occupancy 5.
 ATOM C CA MET A 7 1 2 3 5.
occupancy .5
 ATOM C CA MET A 7 1 2 3 .5
occupancy 0,5
 ATOM C CA MET A 7 1 2 3 0,5
",
        Word::Place,
    )
}
