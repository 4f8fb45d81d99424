// What a byte is to the tokenizer: one decision by value and range.
ghost use Rattle.std.specs.Prelude.{◌≡◌};
ghost use Rattle.tokens.specs.Kinds.{kind_of, is_blank, is_plain};

#[derive(Clone, Copy)]
pub enum Kind {
    Blank,
    Quote,
    Plain,
}

pub(crate) fn kind_of(b: u8) -> Kind
    ensures { result ≡ kind_of b }
{
    match b {
        b'\t' | b' ' => Kind::Blank,
        b'"' | b'\'' => Kind::Quote,
        0..=8 | 10..=31 | b'!' | b'#'..=b'&' | b'('..=255 => Kind::Plain,
    }
}

pub(crate) fn is_blank(b: u8) -> bool
    ensures { result ≡ is_blank b }
{
    matches!(kind_of(b), Kind::Blank)
}

pub(crate) fn is_plain(b: u8) -> bool
    ensures { result ≡ is_plain b }
{
    matches!(kind_of(b), Kind::Plain)
}
