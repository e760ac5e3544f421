// Characters written at a position of the line at the end of a text.
ghost use Rattle.std.specs.Prelude.{◌≡◌, ◌≢◌, [], IfOk, ◌+◌, ◌-◌, ◌≤◌, ◌<◌, ◌^◌, ◌++◌, length, take, drop, replicate, OnOk, OnErr};
ghost use Rattle.fj_line.specs.Line.{with_chars};

use fj_value::Text;
use std::alloc::AllocError;

const BLANK: u8 = b' ';

/// How many bytes a text has.
pub fn length_of(text: &Text) -> usize
    ensures value { result ≡ length text.now }
    ensures within { length text.now < 2 ^ 63 }
{
    text.bytes().len()
}

/// Writes characters over those from a place on, and behind the text. Want of memory changes nothing.
fn write_within(text: &mut Text, place: usize, chars: &[u8]) -> Result<(), AllocError>
    requires { place ≤ length text.old }
    ensures ok { OnOk result (text.new ≡ take place text.old ++ (chars.now ++ drop (place + length chars.now) text.old)) }
    ensures err { OnErr result (text.new ≡ text.old) }
{
    let over = (text.len() - place).min(chars.len());
    text.push_all(&chars[over..])?;
    text.write_over(place, &chars[..over]);
    Ok(())
}

/// Writes characters at a place behind the text, with blanks before them. Want of memory changes nothing.
fn write_behind(text: &mut Text, place: usize, chars: &[u8]) -> Result<(), AllocError>
    requires { length text.old ≤ place }
    ensures ok { OnOk result (text.new ≡ text.old ++ (replicate (place - length text.old) 32 ++ chars.now)) }
    ensures err { OnErr result (text.new ≡ text.old) }
{
    let end = text.len();
    text.fill_to(place, BLANK)?;
    match text.push_all(chars) {
        Ok(()) => Ok(()),
        Err(error) => {
            text.truncate(end);
            Err(error)
        }
    }
}

/// Writes some characters at a position of the line that begins at a place, with blanks at the positions that are passed. Want
/// of memory changes nothing.
#[tactic(auto, using(crate::proofs::PageLemmas::written_within))]
fn write_some(text: &mut Text, line: usize, at: u64, chars: &[u8]) -> Result<(), AllocError>
    requires some { chars.now ≢ [] }
    requires line { line ≤ length text.old }
    requires near { at ≤ 2 ^ 63 }
    ensures ok { OnOk result (drop line text.new ≡ with_chars (drop line text.old) at chars.now) }
    ensures end { OnOk result (line + (at + length chars.now) ≤ length text.new) }
    ensures front { take line text.new ≡ take line text.old }
    ensures err { OnErr result (text.new ≡ text.old) }
{
    let length = length_of(text);
    let place = line + at as usize;
    if place < length {
        write_within(text, place, chars)
    } else if place > length {
        write_behind(text, place, chars)
    } else {
        text.push_all(chars)
    }
}

/// The same of any characters, and the position behind them.
pub fn write_at(text: &mut Text, line: usize, at: u64, chars: &[u8]) -> Result<u64, AllocError>
    requires line { line ≤ length text.old }
    requires near { at ≤ 2 ^ 63 }
    ensures ok { OnOk result (drop line text.new ≡ with_chars (drop line text.old) at chars.now) }
    ensures behind { IfOk result (λ behind. behind ≡ at + length chars.now) }
    ensures near { IfOk result (λ behind. behind ≤ 2 ^ 63) }
    ensures line { OnOk result (line ≤ length text.new) }
    ensures front { take line text.new ≡ take line text.old }
    ensures err { OnErr result (text.new ≡ text.old) }
{
    if chars.is_empty() {
        return Ok(at);
    }
    write_some(text, line, at, chars)?;
    let behind = at + chars.len() as u64;
    let is_within = behind as usize <= length_of(text);
    prove!(is_within);
    Ok(behind)
}
