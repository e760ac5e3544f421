// A formatted record read from a file.
ghost use Rattle.std.specs.Prelude.{◌≡◌, ◌+◌, ◌-◌, ◌<◌, ◌≤◌, ◌==◌, [], ◌++◌, length, take, drop, IfOk, IfSome, IfNone, OnOk, OnErr, ◌↔◌, IsTrue, ℕ, Some, None};
ghost use Rattle.std.specs.List.{position_or_len};
ghost use Rattle.std.specs.Str.Lines.{strip_carriage_return};
ghost use Rattle.fj_outside.specs.Faults.{Rose};
ghost use Rattle.fj_seqrec.specs.Lines.{is_line_feed};
ghost use Rattle.fj_seqrec.specs.Parts.{IsPartOf, IsPartWithin};
ghost use Rattle.fj_seqrec.specs.Reading.{record_at, HoldsRecord, IsWithin};

use fj_outside::{FileStore, Stop, WINDOW};
use fj_value::Text;
use memchr::memchr;
use std::alloc::AllocError;

/// What a read of a formatted record found.
#[derive(Clone, Copy, Debug, PartialEq, Eq)]
pub enum RecordRead {
    /// A record; the next one begins at this place.
    Line { next: u64 },
    /// The end of the file, which is the endfile record (ISO/IEC 1539-1:2004, 9.1.3).
    End,
    /// A record of more characters than the limit.
    TooLong,
}

/// Reads the formatted record that begins at a place (ISO/IEC 1539-1:2004, 9.1.1), counted in bytes from 0, which is at most the
/// file's length. `limit` counts characters. `into` gets its characters, and after a `Stop` is of no account.
pub fn read_record<F: FileStore>(
    file: &mut F,
    at: u64,
    limit: u32,
    into: &mut Text,
) -> Result<RecordRead, Stop>
    requires { at ≤ F.size file.old }
    ensures telling { F.tells file.old ↔ F.tells file.new }
    ensures same { F.tells file.old → F.bytes file.new ≡ F.bytes file.old }
    ensures answer { F.tells file.old → IfOk result (λ read. read ≡ record_at (F.bytes file.old) at limit) }
    ensures text { F.tells file.old → IfOk result (λ read. HoldsRecord (F.bytes file.old) at read into.new) }

    // Told or not.
    ensures within { IfOk result (λ read. IsWithin (F.size file.old) at limit read into.new) }
    ensures size { F.size file.new ≡ F.size file.old }
    ensures later { F.count file.old ≤ F.count file.new }
    ensures failed { result ≡ Err Stop.Failed → Rose (F.count file.old) (F.count file.new) }
{
    let len = file.len();
    let mut from = at;
    into.clear();
    'reading: while from < len {
        match take_part(file, from, into)? {
            LinePart::Ended(width) => {
                drop_return(into);
                return Ok(fitted(into, limit, from + width + 1));
            }
            LinePart::Open(width) => from += width,
        }
        if into.len() > limit as usize + 1 {
            into.clear();
            return Ok(RecordRead::TooLong);
        }
    }
    if into.is_empty() {
        return Ok(RecordRead::End);
    }
    Ok(fitted(into, limit, len))
}

/// How many bytes of a line were added to a text.
#[derive(Clone, Copy)]
enum LinePart {
    /// The line feed stands behind them.
    Ended(u64),
    /// No line feed stands in them.
    Open(u64),
}

/// Adds the bytes from a place on up to a line feed: those that the file has at hand, or those that it reads at once.
fn take_part<F: FileStore>(file: &mut F, from: u64, into: &mut Text) -> Result<LinePart, Stop>
    requires { from < F.size file.old }
    ensures telling { F.tells file.old ↔ F.tells file.new }
    ensures same { F.tells file.old → F.bytes file.new ≡ F.bytes file.old }
    ensures part { F.tells file.old → IfOk result (λ part. IsPartOf (drop from (F.bytes file.old)) into.old part into.new) }
    ensures within { IfOk result (λ part. IsPartWithin (F.size file.old - from) into.old part into.new) }
    ensures size { F.size file.new ≡ F.size file.old }
    ensures later { F.count file.old ≤ F.count file.new }
    ensures failed { result ≡ Err Stop.Failed → Rose (F.count file.old) (F.count file.new) }
{
    file.fill(from)?;
    let hand = file.at_hand(from);
    if hand.is_empty() {
        return take_piece(file, from, into);
    }
    Ok(take_line(hand, into)?)
}

/// The same, of a file that has nothing at hand.
fn take_piece<F: FileStore>(file: &mut F, from: u64, into: &mut Text) -> Result<LinePart, Stop>
    requires { from < F.size file.old }
    ensures telling { F.tells file.old ↔ F.tells file.new }
    ensures same { F.tells file.old → F.bytes file.new ≡ F.bytes file.old }
    ensures part { F.tells file.old → IfOk result (λ part. IsPartOf (drop from (F.bytes file.old)) into.old part into.new) }
    ensures within { IfOk result (λ part. IsPartWithin (F.size file.old - from) into.old part into.new) }
    ensures size { F.size file.new ≡ F.size file.old }
    ensures later { F.count file.old ≤ F.count file.new }
    ensures failed { result ≡ Err Stop.Failed → Rose (F.count file.old) (F.count file.new) }
{
    let within = from < file.len();
    prove!(within);
    let mut piece = [0u8; WINDOW];
    let count = file.read_at(from, &mut piece)?;
    Ok(take_line(&piece[..count], into)?)
}

/// Adds the front of a piece up to its first line feed, or the whole piece, which is not empty.
fn take_line(piece: &[u8], into: &mut Text) -> Result<LinePart, AllocError>
    requires { 0 < length piece.now }
    ensures part { IfOk result (λ part. IsPartOf piece.now into.old part into.new) }
    ensures within { IfOk result (λ part. IsPartWithin (length piece.now) into.old part into.new) }
{
    match memchr(b'\n', piece) {
        Some(width) => {
            into.push_all(&piece[..width])?;
            Ok(LinePart::Ended(width as u64))
        }
        None => {
            into.push_all(piece)?;
            Ok(LinePart::Open(piece.len() as u64))
        }
    }
}

/// Drops one carriage return at the end.
fn drop_return(line: &mut Text)
    ensures { line.new ≡ strip_carriage_return line.old }
{
    if let Some(b'\r') = line.bytes().last() {
        line.truncate(line.len() - 1);
    }
}

/// The answer for a whole record, whose text is cleared where it has more characters than the limit.
fn fitted(line: &mut Text, limit: u32, next: u64) -> RecordRead
    ensures line { length line.old ≤ limit → (result ≡ RecordRead.Line next) × (line.new ≡ line.old) }
    ensures too_long { limit < length line.old → (result ≡ RecordRead.TooLong) × (line.new ≡ []) }
{
    if line.len() > limit as usize {
        line.clear();
        return RecordRead::TooLong;
    }
    RecordRead::Line { next }
}
