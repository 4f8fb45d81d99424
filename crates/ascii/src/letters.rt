// Letters in either case.
ghost use Rattle.std.specs.Prelude.{◌≡◌};
ghost use Rattle.ascii.specs.Letters.{eq_ignore_case};

// Whether s and t are the same but for the case of their letters.
pub fn eq_ignore_ascii_case(s: &[u8], t: &[u8]) -> bool
    ensures { result ≡ eq_ignore_case s.now t.now }
{
    s.eq_ignore_ascii_case(t)
}
