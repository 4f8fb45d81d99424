// Whether a text is a certain word, or begins with one.
ghost use Rattle.std.specs.Prelude.{◌≡◌};
ghost use Rattle.ascii.specs.Words.{starts_with, same_bytes};

#[tactic(auto, using(crate::proofs::WordLaws::starts_front))]
pub fn starts_with(s: &[u8], prefix: &[u8]) -> bool
    ensures { result ≡ starts_with s.now prefix.now }
{
    s.starts_with(prefix)
}

#[tactic(auto, using(crate::proofs::WordLaws::same_pointwise))]
pub fn same_bytes(s: &[u8], t: &[u8]) -> bool
    ensures { result ≡ same_bytes s.now t.now }
{
    s == t
}
