// What is asked of a token: whether it is a certain word, or begins with one.
ghost use Rattle.std.specs.Prelude.{◌≡◌};
ghost use Rattle.token_values.specs.Words.{is_missing, is_loop, is_item, is_cell_item, is_atom_site_item, is_hetatm};

// A value that is not given.
pub fn is_missing(token: &[u8]) -> bool
    ensures { result ≡ is_missing token.now }
{
    ascii::same_bytes(token, b".") || ascii::same_bytes(token, b"?")
}

pub fn is_loop(token: &[u8]) -> bool
    ensures { result ≡ is_loop token.now }
{
    ascii::same_bytes(token, b"loop_")
}

pub fn is_item(token: &[u8]) -> bool
    ensures { result ≡ is_item token.now }
{
    ascii::starts_with(token, b"_")
}

pub fn is_cell_item(token: &[u8]) -> bool
    ensures { result ≡ is_cell_item token.now }
{
    ascii::starts_with(token, b"_cell.")
}

pub fn is_atom_site_item(token: &[u8]) -> bool
    ensures { result ≡ is_atom_site_item token.now }
{
    ascii::starts_with(token, b"_atom_site.")
}

pub fn is_hetatm(token: &[u8]) -> bool
    ensures { result ≡ is_hetatm token.now }
{
    ascii::eq_ignore_ascii_case(token, b"HETATM")
}
