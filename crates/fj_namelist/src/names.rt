// Names, subscripts and repeat counts in namelist input (ISO/IEC 1539-1:2004, 10.10.1).
ghost use Rattle.std.specs.Prelude.{◌≡◌, ◌-◌, ◌≤◌, length, take, MatchOption, IfSome, Some, None, slice_get};
ghost use Rattle.fj_namelist.specs.Names.{same_name, closed_number, subscript_in, designator, ends_at_equals, ranged, repeat_in, behind_star};

use fj_list::{digits_width, number, width_before};

/// A name of so many characters, and a subscript or none.
#[derive(Clone, Copy)]
pub struct Named {
    pub width: usize,
    pub subscript: Option<u64>,
}

pub fn same_name(a: &[u8], b: &[u8]) -> bool
    ensures { result ≡ same_name a.now b.now }
{
    a.eq_ignore_ascii_case(b)
}

fn closed_number(chars: &[u8]) -> Option<u64>
    ensures { result ≡ closed_number chars.now (slice_get chars.now (length chars.now - 1)) }
{
    match chars.last().copied() {
        Some(b')') => number(&chars[..chars.len() - 1]),
        _ => None,
    }
}

/// The number of digits between parentheses.
pub fn subscript_in(chars: &[u8]) -> Option<u64>
    ensures { result ≡ subscript_in chars.now }
{
    match chars {
        [b'(', rest @ ..] => closed_number(rest),
        _ => None,
    }
}

/// A name, or a name with a subscript.
pub fn designator(chars: &[u8]) -> Option<Named>
    ensures is { MatchOption result (designator chars.now ≡ None) (λ named. designator chars.now
        ≡ Some (record { name = take named.width chars.now; subscript = named.subscript })) }
    ensures within { IfSome result (λ named. named.width ≤ length chars.now) }
{
    let width = width_before(b'(', chars);
    if width == 0 {
        return None;
    }
    if width == chars.len() {
        return Some(Named {
            width,
            subscript: None,
        });
    }
    match subscript_in(&chars[width..]) {
        Some(n) => Some(Named {
            width,
            subscript: Some(n),
        }),
        None => None,
    }
}

/// Whether `=` behind these characters ends them: a name, or the subscript of one.
pub fn ends_at_equals(chars: &[u8]) -> bool
    ensures { result ≡ ends_at_equals chars.now }
{
    designator(chars).is_some() || subscript_in(chars).is_some()
}

fn ranged(n: u64) -> Option<u32>
    ensures { result ≡ ranged n }
{
    if n == 0 || n > u64::from(u32::MAX) {
        return None;
    }
    Some(n as u32)
}

/// The repeat count that a word begins with, or that it is out of range.
pub fn repeat_in(word: &[u8]) -> Option<Option<u32>>
    ensures { result ≡ repeat_in word.now }
{
    let width = digits_width(word);
    match word.get(width).copied() {
        Some(b'*') => match number(&word[..width]) {
            Some(n) => Some(ranged(n)),
            None => None,
        },
        _ => None,
    }
}

/// What stands behind the digits that a word begins with and one more character.
pub fn behind_star(word: &[u8]) -> &[u8]
    ensures { result.now ≡ behind_star word.now }
{
    let width = digits_width(word);
    if width < word.len() {
        &word[width + 1..]
    } else {
        &[]
    }
}
