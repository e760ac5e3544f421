// A handle, and what each call does to it.
ghost use Rattle.std.specs.Prelude.{◌≡◌, ◌≢◌, ◌<◌, true, false, [], IfOk, IfErr, IfSome};
ghost use Rattle.fj_link.specs.Calls.{IsMade, Named, HasFormat, spec_asked, number_of, IsConnected, Opened, Wrote, WroteShort, Reads, Last, WaitedAll, WaitedOne, Gives, Closed, Left, Ended, Worked};

use fj_format::{Format, parse};
use fj_modes::{FileName, FileStatus, OpenSpec, is_file_name};
use fj_unit::{Session, layout_of};
use fj_value::{Condition, Kind};
use std::alloc::Global;

/// A call was out of order: no name was given, the unit is connected already or is not, or transfers are pending.
const UNORDERED: u32 = 1001;

/// Memory was refused.
const NO_MEMORY: u32 = 1002;

/// The text is not a name or a format.
const NOT_ONE: u32 = 1003;

/// What a caller's handle holds.
#[derive(Drop)]
pub struct Handle {
    pub alloc: Global,
    pub session: Option<Session>,
    pub name: Option<FileName>,
    pub format: Option<Format>,
    /// What the file is to hold, once the unit was closed.
    pub left: Option<Vec<u8>>,
}

pub(crate) fn made(alloc: Global) -> Handle
    ensures { IsMade result }
{
    Handle {
        alloc,
        session: None,
        name: None,
        format: None,
        left: None,
    }
}

/// FILE= of the OPEN that follows.
pub(crate) fn set_name(handle: &mut Handle, alloc: Global, text: &[u8]) -> u32
    ensures { Named handle.old text.now handle.new result }
{
    if !is_file_name(text) {
        return NOT_ONE;
    }
    match FileName::new(alloc, text) {
        Ok(name) => {
            handle.name = Some(name);
            0
        }
        Err(_) => NO_MEMORY,
    }
}

/// FMT= of the transfers that follow; no text is an unformatted one.
pub(crate) fn set_format(handle: &mut Handle, alloc: Global, text: &[u8]) -> u32
    ensures { HasFormat handle.old text.now handle.new result }
{
    if text.is_empty() {
        handle.format = None;
        return 0;
    }
    if text.len() > 65_536 {
        return NOT_ONE;
    }
    match parse(alloc, text) {
        Ok(format) => {
            handle.format = Some(format);
            0
        }
        Err(_) => NOT_ONE,
    }
}

/// The number of a condition that a READ or WRITE tells itself.
fn refused(condition: Condition) -> u32
    ensures number { result ≢ 1002 → result ≡ number_of condition }
    ensures some { result ≢ 0 }
{
    let number = number_of(condition);
    if number == 0 { NO_MEMORY } else { number }
}

/// WRITE of INTEGER(8), pending.
pub(crate) fn write(handle: &mut Handle, alloc: Global, numbers: &[i64]) -> u32
    ensures { Wrote handle.old numbers.now handle.new result }
{
    let Some(session) = &mut handle.session else {
        return UNORDERED;
    };
    if session.next() >= 4_294_967_295 || numbers.len() > 16_777_216 {
        return UNORDERED;
    }
    let Ok(layout) = layout_of(&handle.format) else {
        return NO_MEMORY;
    };
    match session.write(alloc, layout, numbers) {
        Ok(Ok(_)) => 0,
        Ok(Err(condition)) => refused(condition),
        Err(_) => NO_MEMORY,
    }
}

/// Lends the thread to one job: 1 where there was one.
pub(crate) fn work(handle: &mut Handle) -> u32
    ensures { Worked handle.old handle.new }
{
    match &mut handle.session {
        Some(session) => { if session.work() { 1 } else { 0 } }
        None => UNORDERED,
    }
}

/// OPEN with STATUS='UNKNOWN' and ASYNCHRONOUS='YES'.
fn spec_of(formatted: bool) -> OpenSpec
    ensures { result ≡ spec_asked formatted }
{
    OpenSpec {
        file: None,
        status: Some(FileStatus::Unknown),
        access: None,
        formatted: Some(formatted),
        recl: None,
        position: None,
        action: None,
        blank_zero: None,
        delim: None,
        pad: None,
        comma: None,
        plus: None,
        asynchronous: Some(true),
    }
}

/// The number of a condition, from 0 on.
fn number_of(condition: Condition) -> u32
    ensures number { result ≡ number_of condition }
    ensures few { result < 1000 }
{
    match condition {
        Condition::Fine => 0,
        Condition::EndOfFile => 256,
        Condition::EndOfRecord => 257,
        Condition::Error(number) => u32::from(number),
    }
}

/// A connected unit, or why it is not.
fn connected(alloc: Global, name: &FileName, found: &[u8], formatted: bool) -> Result<Session, u32>
    ensures ok { IfOk result (IsConnected name.now found.now formatted) }
    ensures err { IfErr result (λ code. code ≢ 0) }
{
    let Ok(mut session) = Session::new(alloc) else {
        return Err(NO_MEMORY);
    };
    match session.open(alloc, name, &spec_of(formatted), found, true) {
        Ok(Condition::Fine) => Ok(session),
        Ok(condition) => {
            let number = number_of(condition);
            Err(if number == 0 { NO_MEMORY } else { number })
        }
        Err(_) => Err(NO_MEMORY),
    }
}

fn open(handle: &mut Handle, alloc: Global, found: &[u8], formatted: bool) -> u32
    ensures { Opened formatted handle.old found.now handle.new result }
{
    if handle.session.is_some() {
        return UNORDERED;
    }
    let Some(name) = &handle.name else {
        return UNORDERED;
    };
    match connected(alloc, name, found, formatted) {
        Ok(session) => {
            handle.session = Some(session);
            0
        }
        Err(code) => code,
    }
}

/// OPEN of a file of these bytes for unformatted transfers.
pub(crate) fn open_unformatted(handle: &mut Handle, alloc: Global, found: &[u8]) -> u32
    ensures { Opened false handle.old found.now handle.new result }
{
    open(handle, alloc, found, false)
}

/// OPEN of a file of these bytes for formatted transfers.
pub(crate) fn open_formatted(handle: &mut Handle, alloc: Global, found: &[u8]) -> u32
    ensures { Opened true handle.old found.now handle.new result }
{
    open(handle, alloc, found, true)
}

/// WRITE of INTEGER(4), pending.
pub(crate) fn write_short(handle: &mut Handle, alloc: Global, numbers: &[i32]) -> u32
    ensures { WroteShort handle.old numbers.now handle.new result }
{
    let Some(session) = &mut handle.session else {
        return UNORDERED;
    };
    if session.next() >= 4_294_967_295 || numbers.len() > 16_777_216 {
        return UNORDERED;
    }
    let Ok(layout) = layout_of(&handle.format) else {
        return NO_MEMORY;
    };
    match session.write_short(alloc, layout, numbers) {
        Ok(Ok(_)) => 0,
        Ok(Err(condition)) => refused(condition),
        Err(_) => NO_MEMORY,
    }
}

fn read_of(handle: &mut Handle, kind: Kind, count: u64) -> u32
    ensures { Reads kind handle.old count handle.new result }
{
    let Some(session) = &mut handle.session else {
        return UNORDERED;
    };
    if session.next() >= 4_294_967_295 || count > 16_777_216 {
        return UNORDERED;
    }
    let Ok(layout) = layout_of(&handle.format) else {
        return NO_MEMORY;
    };
    match session.read(handle.alloc, layout, kind, count as usize) {
        Ok(Ok(_)) => 0,
        Ok(Err(condition)) => refused(condition),
        Err(_) => NO_MEMORY,
    }
}

/// READ of so many INTEGER(8), pending.
pub(crate) fn read(handle: &mut Handle, count: u64) -> u32
    ensures { Reads Kind.Int8 handle.old count handle.new result }
{
    read_of(handle, Kind::Int8, count)
}

/// READ of so many INTEGER(4), pending.
pub(crate) fn read_short(handle: &mut Handle, count: u64) -> u32
    ensures { Reads Kind.Int4 handle.old count handle.new result }
{
    read_of(handle, Kind::Int4, count)
}

/// The identifier of the transfer that was made pending last.
pub(crate) fn last(handle: &mut Handle) -> u32
    ensures { Last handle.old handle.new result }
{
    match &handle.session {
        Some(session) => session.next().saturating_sub(1),
        None => 0,
    }
}

/// WAIT without ID=, and the number of its condition.
pub(crate) fn wait_all(handle: &mut Handle) -> u32
    ensures { WaitedAll handle.old handle.new result }
{
    let Some(session) = &mut handle.session else {
        return UNORDERED;
    };
    match session.wait_all() {
        Ok(condition) => number_of(condition),
        Err(_) => NO_MEMORY,
    }
}

/// WAIT with ID=, and the number of its condition.
pub(crate) fn wait_one(handle: &mut Handle, id: u32) -> u32
    ensures { WaitedOne handle.old id handle.new result }
{
    let Some(session) = &mut handle.session else {
        return UNORDERED;
    };
    match session.wait_one(id) {
        Ok(Some(condition)) => number_of(condition),
        Ok(None) => UNORDERED,
        Err(_) => NO_MEMORY,
    }
}

/// Copies the values of a READ that the last WAIT told: 1 where it did.
pub(crate) fn values(handle: &mut Handle, id: u32, out: &mut [i64]) -> u32
    ensures { Gives handle.old id handle.new out.new result }
{
    match &handle.session {
        Some(session) => { if session.values(id, out) { 1 } else { 0 } }
        None => 0,
    }
}

/// Whether a transfer was not told.
fn has_pending(handle: &Handle) -> bool
    ensures { result ≡ false → IfSome handle.now.session (λ s. s.unit.pending ≡ []) }
{
    match &handle.session {
        Some(session) => session.has_pending(),
        None => false,
    }
}

/// CLOSE of a unit that has nothing pending.
pub(crate) fn close(handle: &mut Handle) -> u32
    ensures { Closed handle.old handle.new result }
{
    if has_pending(handle) {
        return UNORDERED;
    }
    let Some(session) = &mut handle.session else {
        return UNORDERED;
    };
    match session.close(handle.alloc) {
        Ok(left) => {
            handle.left = left;
            handle.session = None;
            0
        }
        Err(_) => NO_MEMORY,
    }
}

/// How many bytes the file is to hold once the unit was closed; it copies them where there is room for just so many.
pub(crate) fn left(handle: &mut Handle, _alloc: Global, out: &mut [u8]) -> u64
    ensures { Left handle.old handle.new out.old out.new result }
{
    let Some(left) = &handle.left else {
        return 0;
    };
    if left.len() == out.len() {
        out.copy_from_slice(left);
    }
    left.len() as u64
}

/// Ends it: 1 where the unit was still connected.
pub(crate) fn ended(handle: Handle) -> u32
    ensures { Ended handle result }
{
    if handle.session.is_some() { 1 } else { 0 }
}
