// Refusal 5: each of the seven columns missing in turn, in a loop behind another.
use crate::answers::Word;
use crate::tables::show_table;
use std::io;

pub(crate) fn show_all(rt: &impl Print) -> io::Result<()> {
    show_table(
        rt,
        b"\
no atom column
 loop_
 _atom_site.auth_comp_id
 _atom_site.auth_asym_id
 _atom_site.auth_seq_id
 _atom_site.Cartn_x
 _atom_site.Cartn_y
 _atom_site.Cartn_z
 1 1 1 1 1 1
no residue column
 loop_
 _atom_site.auth_atom_id
 _atom_site.auth_asym_id
 _atom_site.auth_seq_id
 _atom_site.Cartn_x
 _atom_site.Cartn_y
 _atom_site.Cartn_z
 1 1 1 1 1 1
no chain column
 loop_
 _atom_site.auth_atom_id
 _atom_site.auth_comp_id
 _atom_site.auth_seq_id
 _atom_site.Cartn_x
 _atom_site.Cartn_y
 _atom_site.Cartn_z
 1 1 1 1 1 1
no sequence column
 loop_
 _atom_site.auth_atom_id
 _atom_site.auth_comp_id
 _atom_site.auth_asym_id
 _atom_site.Cartn_x
 _atom_site.Cartn_y
 _atom_site.Cartn_z
 1 1 1 1 1 1
no x column
 loop_
 _atom_site.auth_atom_id
 _atom_site.auth_comp_id
 _atom_site.auth_asym_id
 _atom_site.auth_seq_id
 _atom_site.Cartn_y
 _atom_site.Cartn_z
 1 1 1 1 1 1
no y column
 loop_
 _atom_site.auth_atom_id
 _atom_site.auth_comp_id
 _atom_site.auth_asym_id
 _atom_site.auth_seq_id
 _atom_site.Cartn_x
 _atom_site.Cartn_z
 1 1 1 1 1 1
no z column
 loop_
 _atom_site.auth_atom_id
 _atom_site.auth_comp_id
 _atom_site.auth_asym_id
 _atom_site.auth_seq_id
 _atom_site.Cartn_x
 _atom_site.Cartn_y
 1 1 1 1 1 1
no column but the group
 loop_
 _atom_site.group_PDB
 ATOM
",
        Word::Nothing,
    )
}
