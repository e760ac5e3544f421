// A name or keyword of a line (ISO/IEC 1539-1:2004, 3.2.1).
ghost use Rattle.std.specs.Prelude.{◌≡◌, map, IfOk};
ghost use Rattle.std.specs.Char.{to_ascii_uppercase};
ghost use Rattle.std.specs.Str.{bytes_eq};

use fj_value::Text;
use std::alloc::{AllocError, Global};
use std::marker::Model;

/// A word where it stands in its line, seen in upper case. It takes no memory.
#[derive(Drop)]
pub struct Word<'a> {
    bytes: &'a [u8],
}

impl<'a> Model for Word<'a> {
    ghost use Rattle.std.specs.Prelude.{List, ℕ, map};
    ghost use Rattle.std.specs.Char.{to_ascii_uppercase};

    ghost Value = { List ℕ };

    ghost view = { λ word. map to_ascii_uppercase word.bytes.now };
}

/// Whether bytes in upper case are a text.
#[inline]
#[tactic(auto, using(crate::proofs::WordLemmas::other_length))]
fn is_in_upper_case(bytes: &[u8], text: &[u8]) -> bool
    ensures { result ≡ bytes_eq (map to_ascii_uppercase bytes.now) text.now }
{
    if bytes.len() != text.len() {
        return false;
    }
    let mut rest = bytes;
    let mut other = text;
    loop {
        match (rest, other) {
            ([], []) => return true,
            ([first, behind @ ..], [second, after @ ..]) => {
                if first.to_ascii_uppercase() != *second {
                    return false;
                }
                rest = behind;
                other = after;
            }
            _ => return false,
        }
    }
}

impl<'a> Word<'a> {
    /// The word that letters of either case write.
    #[inline]
    pub fn new(bytes: &'a [u8]) -> Word<'a>
        ensures { result ≡ map to_ascii_uppercase bytes.now }
    {
        Word { bytes }
    }

    /// Whether it is this text.
    #[inline]
    #[tactic(auto, using(crate::proofs::WordLemmas::either_way))]
    pub fn is(&self, text: &[u8]) -> bool
        ensures same { result ≡ bytes_eq self.now text.now }
        ensures back { result ≡ bytes_eq text.now self.now }
    {
        is_in_upper_case(self.bytes, text)
    }

    /// The word by itself, in upper case.
    pub fn to_text(&self, alloc: Global) -> Result<Text, AllocError>
        ensures { IfOk result (λ text. text ≡ self.now) }
    {
        Ok(Text::from_vec(self.bytes.to_ascii_uppercase(alloc)?))
    }
}
