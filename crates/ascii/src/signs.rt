// The sign that a number may begin with.
ghost use Rattle.std.specs.Prelude.{◌≡◌};
ghost use Rattle.ascii.specs.Signs.{after_sign};

// What follows the sign; all of the text where it has none.
#[tactic(auto, using(crate::proofs::SignLaws::sign_rest, crate::proofs::SignLaws::no_sign, crate::proofs::SignLaws::nothing))]
pub fn after_sign(s: &[u8]) -> &[u8]
    ensures { result.now ≡ after_sign s.now }
{
    match s {
        [b'-' | b'+', rest @ ..] => rest,
        _ => s,
    }
}
