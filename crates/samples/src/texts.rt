// Texts made of parts, each put behind the other into a buffer.

// Puts the part, where it fits; the place behind it.
pub(crate) fn put(out: &mut [u8], at: usize, part: &[u8]) -> usize {
    ascii::put_text(part, out, at).unwrap_or(at)
}

// Puts the part so many times.
pub(crate) fn repeat(out: &mut [u8], at: usize, part: &[u8], count: usize) -> usize {
    let mut place = at;
    for _ in 0..count {
        place = put(out, place, part);
    }
    place
}

// Puts ten headers: those of document 01's whole case.
pub(crate) fn put_headers(out: &mut [u8], at: usize) -> usize {
    put(
        out,
        at,
        b"\
_atom_site.group_PDB
_atom_site.type_symbol
_atom_site.auth_atom_id
_atom_site.auth_comp_id
_atom_site.auth_asym_id
_atom_site.auth_seq_id
_atom_site.Cartn_x
_atom_site.Cartn_y
_atom_site.Cartn_z
_atom_site.occupancy
",
    )
}

// Puts a loop with these headers and these lines, the first of which is line 12.
pub(crate) fn put_atoms(out: &mut [u8], lines: &[u8]) -> usize {
    let place = put(out, 0, b"loop_\n");
    let place = put_headers(out, place);
    put(out, place, lines)
}
