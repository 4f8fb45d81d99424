// The lines in front of the rows.
#![tactic(auto, unfolding(crate::specs::Text::lines_text))]

ghost use Rattle.row_texts.specs.Emitted.{Emits};
ghost use Rattle.writer.specs.Text.{lines_text, opening, polymer_headers, atom_headers};

use row_texts::put_word;

pub(crate) fn put_opening(out: &mut [u8], at: usize) -> usize
    ensures { Emits out at (lines_text opening) result }
{
    put_word(
        out,
        at,
        b"data_bio_forge_export\n\
        #\n",
    )
}

pub(crate) fn put_polymer_headers(out: &mut [u8], at: usize) -> usize
    ensures { Emits out at (lines_text polymer_headers) result }
{
    put_word(
        out,
        at,
        b"loop_\n\
        _entity_poly_seq.entity_id\n\
        _entity_poly_seq.num\n\
        _entity_poly_seq.mon_id\n\
        _entity_poly_seq.hetero\n",
    )
}

pub(crate) fn put_atom_headers(out: &mut [u8], at: usize) -> usize
    ensures { Emits out at (lines_text atom_headers) result }
{
    put_word(
        out,
        at,
        b"loop_\n\
        _atom_site.group_PDB\n\
        _atom_site.id\n\
        _atom_site.type_symbol\n\
        _atom_site.label_atom_id\n\
        _atom_site.label_alt_id\n\
        _atom_site.label_comp_id\n\
        _atom_site.label_asym_id\n\
        _atom_site.label_entity_id\n\
        _atom_site.label_seq_id\n\
        _atom_site.pdbx_PDB_ins_code\n\
        _atom_site.Cartn_x\n\
        _atom_site.Cartn_y\n\
        _atom_site.Cartn_z\n\
        _atom_site.occupancy\n\
        _atom_site.B_iso_or_equiv\n\
        _atom_site.auth_seq_id\n\
        _atom_site.auth_comp_id\n\
        _atom_site.auth_asym_id\n\
        _atom_site.auth_atom_id\n",
    )
}
