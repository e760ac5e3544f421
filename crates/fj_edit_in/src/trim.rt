// The blanks in front of a field (ISO/IEC 1539-1:2004, 10.6.1).
ghost use Rattle.std.specs.Prelude.{◌≡◌};
ghost use Rattle.fj_edit_in.specs.InputField.{trimmed};

/// The characters from the first on that is no blank.
pub fn skip_blanks(chars: &[u8]) -> &[u8]
    ensures { result.now ≡ trimmed chars.now }
{
    let mut start = 0;
    while start < chars.len() && chars[start] == b' ' {
        start += 1;
    }
    &chars[start..]
}
