// The fifteen items that matter, in the order of the column map.
ghost use Rattle.std.specs.Prelude.{◌≡◌};
ghost use Rattle.ascii.specs.Words.{same_bytes};
ghost use Rattle.tokens.specs.Items.{item_of};
ghost use Rattle.tokens.specs.Trim.{trim_end};

use crate::trim::trim_end;

// Each name with blanks after it, as long as the longest.
const NAMES: [[u8; 28]; 15] = [
    *b"_atom_site.group_PDB        ",
    *b"_atom_site.auth_atom_id     ",
    *b"_atom_site.label_atom_id    ",
    *b"_atom_site.auth_comp_id     ",
    *b"_atom_site.label_comp_id    ",
    *b"_atom_site.auth_asym_id     ",
    *b"_atom_site.label_asym_id    ",
    *b"_atom_site.auth_seq_id      ",
    *b"_atom_site.label_seq_id     ",
    *b"_atom_site.pdbx_PDB_ins_code",
    *b"_atom_site.Cartn_x          ",
    *b"_atom_site.Cartn_y          ",
    *b"_atom_site.Cartn_z          ",
    *b"_atom_site.occupancy        ",
    *b"_atom_site.type_symbol      ",
];

// Whether the token is the name that a row holds.
fn is_name(token: &[u8], row: &[u8]) -> bool
    ensures { result ≡ same_bytes token.now (trim_end row.now) }
{
    let end = trim_end(row);
    ascii::same_bytes(token, &row[..end])
}

// Which item the token names, from 0.
pub fn item_of(token: &[u8]) -> Option<usize>
    ensures { result ≡ item_of token.now }
{
    NAMES.iter().position(|row| is_name(token, row))
}
