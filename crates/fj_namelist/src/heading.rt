// The group's name in namelist input (ISO/IEC 1539-1:2004, 10.10.1).
ghost use Rattle.std.specs.Prelude.{◌≡◌, ◌<◌, ◌≤◌, ◌↔◌, length, drop, IfOk, IfSome, MatchOption, None, Some, List, ℕ};
ghost use Rattle.fj_value.specs.declared.condition.Condition.{Condition};
ghost use Rattle.fj_outside.specs.Faults.{Rose};
ghost use Rattle.fj_list.specs.ListInput.{condition_of};
ghost use Rattle.fj_namelist.specs.Heading.{is_passed, behind_name, heading_in, heading, Finds, IsIn};

use crate::names::same_name;
use fj_list::{Records, blanks_width, next_line, text_width};
use fj_outside::Stop;
use fj_value::{Condition, Text};

/// What a group's name was looked for in.
#[derive(Clone, Copy)]
pub enum Found {
    /// It ends at this place of the record at hand.
    At(usize),
    /// The record at hand has another text.
    Misnamed,
    /// The records end in this condition.
    Missing(Condition),
}

fn is_passed(text: &[u8]) -> bool
    ensures { result ≡ is_passed text.now }
{
    match text {
        [] => true,
        [c, ..] => *c == b'!',
    }
}

/// Where an ampersand and the name end.
fn name_end(group: &[u8], text: &[u8]) -> Option<usize>
    ensures is { MatchOption result (behind_name group.now text.now ≡ None)
        (λ at. behind_name group.now text.now ≡ Some (drop at text.now)) }
    ensures within { IfSome result (λ at. at ≤ length text.now) }
{
    let [c, rest @ ..] = text else {
        return None;
    };
    let width = text_width(rest);
    if *c == b'&' && same_name(&rest[..width], group) {
        return Some(width + 1);
    }
    None
}

/// What stands in a record that is not passed over.
fn found_in(group: &[u8], line: &[u8], start: usize) -> Found
    requires { start ≤ length line.now }
    ensures is { (ending : Condition) (left : List (List ℕ)) →
        Finds result (heading_in left (behind_name group.now (drop start line.now))) line.now ending left }
    ensures within { IsIn result line.now }
{
    match name_end(group, &line[start..]) {
        Some(at) => Found::At(start + at),
        None => Found::Misnamed,
    }
}

/// Reads up to the first record with a text that is no comment, and looks for the name there.
pub fn find_heading<R: Records>(
    records: &mut R,
    line: &mut Text,
    group: &[u8],
) -> Result<Found, Stop>
    ensures telling { R.tells records.old ↔ R.tells records.new }
    ensures contents { R.tells records.old → IfOk result (λ found. Finds found
        (heading group.now (R.to_come records.old)) line.new
        (condition_of (R.ending records.old)) (R.to_come records.new)) }
    ensures within { IfOk result (λ found. IsIn found line.new) }
    ensures same { R.tells records.old → IfOk result (λ _. R.ending records.new ≡ R.ending records.old) }
    ensures source { R.source records.new ≡ R.source records.old }
    ensures later { R.count records.old ≤ R.count records.new }
    ensures failed { result ≡ Err Stop.Failed → Rose (R.count records.old) (R.count records.new) }
{
    'lines: loop {
        if let Some(condition) = next_line(records, line)? {
            return Ok(Found::Missing(condition));
        }
        let start = blanks_width(line.bytes());
        if !is_passed(&line.bytes()[start..]) {
            return Ok(found_in(group, line.bytes(), start));
        }
    }
}
