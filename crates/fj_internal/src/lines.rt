// What a WRITE wrote, cut into records (ISO/IEC 1539-1:2004, 9.3).
ghost use Rattle.std.specs.Prelude.{◌≡◌, ◌<◌, ◌≤◌, length, map, take, IfOk, IfSome, IfNone};
ghost use Rattle.std.specs.Str.Lines.{strip_carriage_return};
ghost use Rattle.fj_seqrec.specs.Lines.{lines, first_line, behind_line};
ghost use Rattle.fj_value.specs.Reading.{assigned_text};
ghost use Rattle.fj_seqrec.proofs.Positions.{line_feed_place};
ghost use Rattle.fj_internal.specs.Internal.{value_of};

use fj_value::{Text, Value};
use memchr::memchr;
use std::alloc::{AllocError, Global};

/// The line without the carriage return directly before its line feed.
fn without_return(line: &[u8]) -> &[u8]
    ensures { result.now ≡ strip_carriage_return line.now }
{
    match line.last() {
        Some(b'\r') => &line[..line.len() - 1],
        _ => line,
    }
}

/// The place of the first line feed, or the length where there is none.
pub(crate) fn feed_place(bytes: &[u8]) -> usize
    ensures { result ≡ line_feed_place bytes.now }
{
    match memchr(b'\n', bytes) {
        Some(at) => at,
        None => bytes.len(),
    }
}

/// The first line of bytes, by the place of the first line feed.
#[tactic(auto, using(crate::proofs::Cutting::first_open, crate::proofs::Cutting::first_fed))]
fn first_line(bytes: &[u8], place: usize) -> &[u8]
    requires { place ≡ line_feed_place bytes.now }
    ensures { result.now ≡ first_line bytes.now }
{
    if place >= bytes.len() {
        return bytes;
    }
    without_return(&bytes[..place])
}

/// How many bytes the first line has.
#[tactic(auto, using(crate::proofs::Cutting::first_taken))]
pub(crate) fn line_length(bytes: &[u8], place: usize) -> usize
    requires { place ≡ line_feed_place bytes.now }
    ensures { take result bytes.now ≡ first_line bytes.now }
{
    first_line(bytes, place).len()
}

/// What stands behind the first line.
#[tactic(auto, using(crate::proofs::Cutting::behind_open, crate::proofs::Cutting::behind_fed))]
fn behind_line(bytes: &[u8], place: usize) -> &[u8]
    requires { place ≡ line_feed_place bytes.now }
    ensures { result.now ≡ behind_line bytes.now }
{
    if place >= bytes.len() {
        return &[];
    }
    &bytes[place + 1..]
}

/// A line as an element of a length holds it, in one piece of memory: cut on the right, or with blanks behind.
fn filled(alloc: Global, size: u32, line: &[u8]) -> Result<Text, AllocError>
    ensures { IfOk result (λ text. text ≡ assigned_text size line.now) }
{
    let taken = line.len().min(size as usize);
    let mut text = Text::new(alloc);
    text.reserve(size as usize)?;
    text.push_all(&line[..taken])?;
    text.push_copies(b' ', size - taken as u32)?;
    Ok(text)
}

/// The lines of bytes as the values of elements of a length; none where they are more than so many.
pub fn values_of(
    alloc: Global,
    bytes: &[u8],
    size: u32,
    most: usize,
) -> Result<Option<Vec<Value>>, AllocError>
    ensures some { IfOk result (λ o. IfSome o (λ values. values.items ≡ map (value_of size) (lines bytes.now))) }
    ensures within { IfOk result (λ o. IfSome o (λ values. length (lines bytes.now) ≤ most)) }
    ensures none { IfOk result (λ o. IfNone o (most < length (lines bytes.now))) }
{
    let mut values = Vec::new(alloc);
    let mut rest = bytes;
    'cutting: while !rest.is_empty() {
        if values.len() == most {
            return Ok(None);
        }
        let place = feed_place(rest);
        let text = filled(alloc, size, first_line(rest, place))?;
        values.push(Value::of_text(text)?)?;
        rest = behind_line(rest, place);
    }
    Ok(Some(values))
}
