// A character literal of a line (ISO/IEC 1539-1:2004, 4.4.4).
ghost use Rattle.std.specs.Prelude.{◌≡◌, ℕ, ◌≤◌, ◌<◌, ◌==◌, ◌++◌, IfOk, IfSome, IfNone, position, length};
ghost use Rattle.fj_syntax.specs.Undoubled.{undoubled, behind_one};

use fj_value::Text;
use std::alloc::{AllocError, Global};
use std::marker::Model;

/// A literal where it stands in its line, seen as the text that it is: a doubled delimiter is one. It takes no memory.
#[derive(Drop)]
pub struct Literal<'a> {
    delimiter: u8,
    /// What stands between the delimiters.
    inside: &'a [u8],
}

impl<'a> Model for Literal<'a> {
    ghost use Rattle.std.specs.Prelude.{List, ℕ};
    ghost use Rattle.fj_syntax.specs.Undoubled.{undoubled};

    ghost Value = { List ℕ };

    ghost view = { λ literal. undoubled literal.delimiter literal.inside.now };
}

fn place_of(delimiter: u8, text: &[u8]) -> Option<usize>
    ensures at { result ≡ position (λ c. c == delimiter) text.now }
    ensures within { IfSome result (λ at. at < length text.now) }
{
    text.iter().position(|byte| *byte == delimiter)
}

fn behind_one(text: &[u8]) -> &[u8]
    ensures text { (q : ℕ) → undoubled q result.now ≡ behind_one q text.now }
    ensures short { length result.now ≤ length text.now }
{
    match text {
        [_, behind @ ..] => behind,
        [] => text,
    }
}

/// The text up to the first delimiter in it, and what stands behind the double of that.
#[tactic(auto, using(crate::proofs::LiteralLemmas::at_delimiter, crate::proofs::LiteralLemmas::no_delimiter))]
fn parted(delimiter: u8, text: &[u8]) -> Option<(&[u8], &[u8])>
    ensures some { IfSome result (λ parts. undoubled delimiter text.now ≡ parts.0.now ++ undoubled delimiter parts.1.now) }
    ensures shorter { IfSome result (λ parts. length parts.1.now < length text.now) }
    ensures none { IfNone result (undoubled delimiter text.now ≡ text.now) }
{
    match place_of(delimiter, text) {
        Some(at) => {
            let (front, behind) = text.split_at(at + 1);
            Some((front, behind_one(behind)))
        }
        None => None,
    }
}

/// The text that is written with each delimiter in it doubled.
#[tactic(auto, using(crate::proofs::LiteralLemmas::no_delimiter))]
fn undoubled(alloc: Global, delimiter: u8, inside: &[u8]) -> Result<Text, AllocError>
    ensures { IfOk result (λ text. text ≡ undoubled delimiter inside.now) }
{
    if place_of(delimiter, inside).is_none() {
        return Text::from_bytes(alloc, inside);
    }
    let mut text = Text::new(alloc);
    text.reserve(inside.len())?;
    let mut rest = inside;
    while let Some((front, behind)) = parted(delimiter, rest) {
        text.push_all(front)?;
        rest = behind;
    }
    text.push_all(rest)?;
    Ok(text)
}

impl<'a> Literal<'a> {
    /// The literal that is written so between delimiters.
    #[inline]
    pub fn new(delimiter: u8, inside: &'a [u8]) -> Literal<'a>
        ensures { result ≡ undoubled delimiter inside.now }
    {
        Literal { delimiter, inside }
    }

    /// The text by itself.
    pub fn to_text(&self, alloc: Global) -> Result<Text, AllocError>
        ensures { IfOk result (λ text. text ≡ self.now) }
    {
        undoubled(alloc, self.delimiter, self.inside)
    }
}
