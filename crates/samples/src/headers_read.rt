// Loops of 64 and 65 headers: those that matter are the last ones, so that a row is read from the last columns.
use crate::answers::{Word, show};
use crate::texts::{put, put_headers, repeat};
use std::io;

fn put_wide_headers(out: &mut [u8], start: &[u8], count: usize) -> usize {
    let place = put(out, 0, start);
    let place = repeat(out, place, b"_atom_site.other\n", count);
    put_headers(out, place)
}

// So many headers before the ten of a row, and as many cells before it.
fn put_wide(out: &mut [u8], start: &[u8], count: usize) -> usize {
    let place = put_wide_headers(out, start, count);
    let place = repeat(out, place, b"0 ", count);
    put(out, place, b"ATOM C CA MET A 7 1 2 3 1\n")
}

fn show_wide(rt: &impl Print, name: &[u8], start: &[u8], count: usize) -> io::Result<()> {
    let mut text = [0u8; 2048];
    let length = put_wide(&mut text, start, count);
    if length <= 2048 {
        show(rt, name, &text[0..length], Word::Place)?;
    }
    Ok(())
}

fn put_other(out: &mut [u8], count: usize) -> usize {
    let place = put(out, 0, b"loop_\n");
    repeat(out, place, b"_entity.id\n", count)
}

// A loop of other headers, and no row.
fn show_other(rt: &impl Print, name: &[u8], count: usize) -> io::Result<()> {
    let mut text = [0u8; 2048];
    let length = put_other(&mut text, count);
    if length <= 2048 {
        show(rt, name, &text[0..length], Word::Nothing)?;
    }
    Ok(())
}

pub(crate) fn show_all(rt: &impl Print) -> io::Result<()> {
    show_wide(rt, b"64 headers", b"loop_\n", 54)?;
    show_wide(rt, b"65 headers", b"loop_\n", 55)?;
    show_wide(
        rt,
        b"64 headers and a cell item",
        b"loop_\n_cell.length_a\n",
        54,
    )?;
    show_wide(
        rt,
        b"65 headers in two loops",
        b"loop_\n_entity.id\nloop_\n",
        54,
    )?;
    show_other(rt, b"64 headers of another loop", 64)?;
    show_other(rt, b"65 headers of another loop", 65)
}
