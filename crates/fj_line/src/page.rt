// The record at hand of a statement, at the end of the text that it writes, and how far its records may go.
ghost use Rattle.std.specs.Prelude.{◌≡◌, ◌+◌, ◌-◌, ◌∷◌, ◌≤◌, ◌<◌, ◌^◌, ◌++◌, ◌↔◌, List, ℕ, [], IsTrue, length, take, drop, OnOk};
ghost use Rattle.fj_line.specs.Actions.{put, move, end_record, first_record, without_limit, behind, excess_of};
ghost use Rattle.fj_line.specs.Page.{at_hand, IsIn, IsAtEnd, Keeps, Carries, Tells, widened};

use crate::moves::{MOST_BYTES, Move};
use crate::place::{length_of, write_at};
use crate::unwritten::Unwritten;
use fj_value::{Condition, Text};

/// The record at hand of a statement. It is the end of a text, which each call is given.
#[derive(Clone, Copy)]
pub struct Page {
    /// The most characters of a record. Without it there is no limit of bytes either.
    limit: Option<u32>,
    /// How many characters the record had before the statement.
    start: u32,
    /// Where in the text the statement begins.
    begin: usize,
    /// Where the record begins.
    line: usize,
    /// The position in it, which is 0 at the left tab limit.
    at: u64,
}

/// The width of a line behind so many characters at a position.
fn widened(width: u64, at: u64, count: u64) -> u64
    requires at { at ≤ 2 ^ 63 }
    requires count { count ≤ 2 ^ 63 - 1 }
    ensures { result ≡ widened width at count }
{
    if count == 0 {
        width
    } else {
        width.max(at + count)
    }
}

impl Page {
    /// The record that so many characters begin, behind a text.
    pub fn new(text: &Text, limit: u32, begun: u32) -> Page
        ensures hand { at_hand result text.now ≡ first_record limit begun }
        ensures within { IsIn result text.now }
        ensures end { IsAtEnd result text.now }
        ensures at { result.at ≡ 0 }
        ensures begin { result.begin ≡ length text.now }
    {
        Page {
            limit: Some(limit),
            start: begun,
            begin: text.len(),
            line: text.len(),
            at: 0,
        }
    }

    /// A record without limits, behind a text.
    pub fn unlimited(text: &Text) -> Page
        ensures hand { at_hand result text.now ≡ without_limit }
        ensures within { IsIn result text.now }
        ensures end { IsAtEnd result text.now }
        ensures at { result.at ≡ 0 }
        ensures begin { result.begin ≡ length text.now }
    {
        Page {
            limit: None,
            start: 0,
            begin: text.len(),
            line: text.len(),
            at: 0,
        }
    }

    /// How many characters the statement wrote of the record.
    pub fn width(&self, text: &Text) -> usize
        requires { self.now.line ≤ length text.now }
        ensures { result ≡ length (at_hand self.now text.now).line.text }
    {
        text.len() - self.line
    }

    /// Whether the record may become so wide.
    fn check(&self, width: u64) -> Result<(), Unwritten>
        requires begin { self.now.begin ≤ self.now.line }
        requires line { self.now.line < 2 ^ 63 }
        ensures { Tells (excess_of self.now.limit (self.now.start + width) ((self.now.line - self.now.begin) + width)) result }
    {
        let Some(limit) = self.limit else {
            return Ok(());
        };
        let limit = u64::from(limit);
        if width > limit || u64::from(self.start) + width > limit {
            return Err(Unwritten::Met(Condition::RECORD_TOO_LONG));
        }
        if (self.line - self.begin) as u64 + width > MOST_BYTES {
            return Err(Unwritten::Met(Condition::OUTPUT_TOO_LONG));
        }
        Ok(())
    }

    /// Whether the record may end.
    fn check_end(&self, text: &Text) -> Result<(), Unwritten>
        requires begin { self.now.begin ≤ self.now.line }
        requires line { self.now.line ≤ length text.now }
        ensures { Tells (excess_of self.now.limit 0 ((length text.now - self.now.begin) + 1)) result }
    {
        if self.limit.is_some() && text.len() - self.begin >= MOST_BYTES as usize {
            return Err(Unwritten::Met(Condition::OUTPUT_TOO_LONG));
        }
        Ok(())
    }

    /// Writes characters at the position.
    pub fn put(&mut self, text: &mut Text, chars: &[u8]) -> Result<(), Unwritten>
        requires { IsIn self.old text.old }
        ensures done { Carries (at_hand self.old text.old) (put chars.now ∷ []) result (at_hand self.new text.new) }
        ensures within { OnOk result (IsIn self.new text.new) }
        ensures kept { Keeps self.old text.old self.new text.new }
    {
        let count = chars.len() as u64;
        let width = (length_of(text) - self.line) as u64;
        self.check(widened(width, self.at, count))?;
        self.at = write_at(text, self.line, self.at, chars)?;
        Ok(())
    }

    /// Whether the position is behind the last character of the record, and so at the end of the text.
    pub fn is_at_end(&self, text: &Text) -> bool
        requires { IsIn self.now text.now }
        ensures { IsTrue result ↔ (self.now.line + self.now.at ≡ length text.now) }
    {
        self.at == (text.len() - self.line) as u64
    }

    /// Takes in what was added to the text where the position was at its end.
    pub fn take_in(&mut self, text: &Text) -> Result<(), Unwritten>
        requires begin { self.old.begin ≤ self.old.line }
        requires line { self.old.line ≤ length text.now }
        ensures done { (old chars : List ℕ) → text.now ≡ old ++ chars → IsAtEnd self.old old
            → Carries (at_hand self.old old) (put chars ∷ []) result (at_hand self.new text.now) }
        ensures within { OnOk result (IsIn self.new text.now) }
        ensures end { OnOk result (IsAtEnd self.new text.now) }
        ensures at { OnOk result (self.new.at ≡ length text.now - self.old.line) }
        ensures begin { self.new.begin ≡ self.old.begin }
    {
        let width = (length_of(text) - self.line) as u64;
        self.check(width)?;
        self.at = width;
        Ok(())
    }

    /// Moves the position.
    pub fn go(&mut self, how: Move, text: &Text)
        requires { IsIn self.old text.now }
        ensures done { at_hand self.new text.now ≡ behind (move how) (at_hand self.old text.now) }
        ensures within { IsIn self.new text.now }
        ensures begin { self.new.begin ≡ self.old.begin }
    {
        self.at = how.from(self.at);
    }

    /// Ends the record, which gets a line feed.
    pub fn end_record(&mut self, text: &mut Text) -> Result<(), Unwritten>
        requires begin { self.old.begin ≤ self.old.line }
        requires line { self.old.line ≤ length text.old }
        ensures done { Carries (at_hand self.old text.old) (end_record ∷ []) result (at_hand self.new text.new) }
        ensures within { OnOk result (IsIn self.new text.new) }
        ensures end { OnOk result (IsAtEnd self.new text.new) }
        ensures at { OnOk result (self.new.at ≡ 0) }
        ensures kept { Keeps self.old text.old self.new text.new }
    {
        self.check_end(text)?;
        text.push_all(b"\n")?;
        self.start = 0;
        self.line = text.len();
        self.at = 0;
        Ok(())
    }
}
