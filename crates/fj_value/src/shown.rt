// How values are shown.
ghost use Rattle.std.specs.Prelude.{◌≡◌, ◌∷◌, []};
ghost use Rattle.fj_value.specs.Shown.{letter, sign};

/// The letter of a truth value.
pub fn letter_of(truth: bool) -> &'static [u8]
    ensures { result.now ≡ letter truth ∷ [] }
{
    if truth { b"T" } else { b"F" }
}

/// The sign in front of the digits of a number: a minus, or a plus where that is asked for.
pub fn sign_of(plus: bool, n: i64) -> &'static [u8]
    ensures { result.now ≡ sign plus n }
{
    if n < 0 {
        b"-"
    } else if plus {
        b"+"
    } else {
        b""
    }
}
