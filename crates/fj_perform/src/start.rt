// Where a transfer begins, and what does not go together with its connection (ISO/IEC 1539-1:2004, 9.5.1).
ghost use Rattle.std.specs.Prelude.{◌≡◌, ◌<◌, ◌≤◌, ◌^◌, ◌&&◌, false, not, length, is_some, if◌then◌else◌, IfOk, IfSome};
ghost use Rattle.fj_modes.specs.Words.{same_access};
ghost use Rattle.fj_modes.specs.declared.specifiers.Access.TheVariants.{Direct, Stream};
ghost use Rattle.fj_value.specs.declared.condition.Condition.TheVariants.{Fine};
ghost use Rattle.fj_connect.specs.Linked.{connection_of};
ghost use Rattle.fj_connect.specs.Spot.{is_writing, size_ended};
ghost use Rattle.fj_transfer.specs.Transfer.{is_formatted, is_explicit, differ, is_unfit, is_forbidden, unfit, begins_at};
ghost use Rattle.fj_perform.specs.Front.{counted, byte_within, starts, follows, IsStart, IsNamed};

use fj_connect::{Connection, Within};
use fj_modes::{Access, Action, Modes};
use fj_outside::FileStore;
use fj_transfer::{Layout, TransferSpec};
use fj_value::Condition;

/// Where a transfer begins.
#[derive(Clone, Copy, PartialEq, Eq)]
pub enum Start {
    /// At the position.
    Here,
    /// Between records, behind so many bytes.
    Byte(u64),
    /// With the direct record of a number.
    Record(u64),
}

fn is_direct(access: Access) -> bool
    ensures { result ≡ same_access access Direct }
{
    match access {
        Access::Direct => true,
        Access::Sequential | Access::Stream => false,
    }
}

fn is_stream(access: Access) -> bool
    ensures { result ≡ same_access access Stream }
{
    match access {
        Access::Stream => true,
        Access::Sequential | Access::Direct => false,
    }
}

fn is_formatted(layout: &Layout) -> bool
    ensures { result ≡ is_formatted layout.now }
{
    match layout {
        Layout::Unformatted => false,
        Layout::Explicit(_) | Layout::Listed | Layout::Group(..) => true,
    }
}

fn is_explicit(layout: &Layout) -> bool
    ensures { result ≡ is_explicit layout.now }
{
    match layout {
        Layout::Explicit(_) => true,
        Layout::Unformatted | Layout::Listed | Layout::Group(..) => false,
    }
}

fn differ(a: bool, b: bool) -> bool
    ensures { result ≡ differ a b }
{
    if a { !b } else { b }
}

/// Whether the layout or a specifier is not for the connection.
fn is_unfit(modes: &Modes, spec: &TransferSpec) -> bool
    ensures { result ≡ is_unfit modes.now spec.now.layout (is_explicit spec.now.layout && not spec.now.advance) (is_some spec.now.rec) (is_some spec.now.pos) }
{
    let formatted = is_formatted(&spec.layout);
    let explicit = is_explicit(&spec.layout);
    let direct = is_direct(modes.access);
    let stays = explicit && !spec.advance;
    differ(modes.formatted, formatted)
        || differ(spec.rec.is_some(), direct)
        || (spec.pos.is_some() && !is_stream(modes.access))
        || (direct && (stays || (formatted && !explicit)))
}

fn is_forbidden(action: Action, input: bool) -> bool
    ensures { result ≡ is_forbidden action input }
{
    match action {
        Action::Read => !input,
        Action::Write => input,
        Action::ReadWrite => false,
    }
}

/// The condition of a transfer that does not go together with its connection: 16 where its layout or a specifier does not,
/// 10 where ACTION= does not allow the direction.
pub fn unfit(modes: &Modes, spec: &TransferSpec) -> Condition
    ensures { result ≡ unfit modes.now spec.now }
{
    if is_unfit(modes, spec) {
        return Condition::UNFIT;
    }
    if is_forbidden(modes.action, spec.input) {
        return Condition::FORBIDDEN_ACTION;
    }
    Condition::Fine
}

/// A number that counts from 1.
fn counted(n: i64) -> Option<u64>
    ensures value { result ≡ counted n }
    ensures near { IfSome result (λ m. (0 < m) × (m < 2 ^ 63)) }
{
    if n < 1 { None } else { Some(n as u64) }
}

/// The place of a byte, which is one of the file or behind the last.
fn at_byte(byte: i64, size: u64) -> Result<Start, Condition>
    requires { size ≤ 268435457 }
    ensures { result ≡ byte_within size (counted byte) }
{
    match counted(byte) {
        Some(byte) if byte <= size + 1 => Ok(Start::Byte(byte - 1)),
        _ => Err(Condition::NO_SUCH_PLACE),
    }
}

/// Whether output left a record open, which is so in formatted files alone, and never in direct access.
pub fn is_open<F: FileStore>(connection: &Connection<F>) -> bool
    ensures value { result ≡ is_writing connection.now.spot.within }
    ensures formatted { connection.now.modes.formatted ≡ false → result ≡ false }
    ensures sequence { connection.now.modes.access ≡ Direct → result ≡ false }
{
    match connection.spot().within {
        Within::Writing => true,
        Within::Outside | Within::Reading => false,
    }
}

/// How long the file is once the record is ended that output left open, where an input follows.
fn size_for<F: FileStore>(connection: &Connection<F>, input: bool) -> u64
    ensures size { result ≡ (if input then size_ended connection.now.spot (F.size connection.now.file) else F.size connection.now.file) }
    ensures near { result ≤ 268435457 }
    ensures bytes { F.tells connection.now.file → F.size connection.now.file ≡ length (F.bytes connection.now.file) }
{
    let size = connection.file_len();
    if input && is_open(connection) {
        return size + 1;
    }
    size
}

/// Where a transfer begins. The error is 20 behind the endfile record, and 21 where POS= or REC= names no place.
pub fn begins_at<F: FileStore>(
    connection: &Connection<F>,
    spec: &TransferSpec,
) -> Result<Start, Condition>
    requires { unfit connection.now.modes spec.now ≡ Fine }
    ensures start { F.tells connection.now.file → let c = follows spec.now.input (connection_of F.bytes connection.now) in
        starts c result ≡ begins_at spec.now c }
    ensures within { IfOk result (IsStart connection.now.modes.access
        (if spec.now.input then size_ended connection.now.spot (F.size connection.now.file) else F.size connection.now.file)) }
    ensures named { IfOk result (λ start. IsNamed start (is_some spec.now.pos)) }
{
    if connection.spot().after_end {
        return Err(Condition::AFTER_ENDFILE);
    }
    if let Some(number) = spec.rec {
        return match counted(number) {
            Some(number) => Ok(Start::Record(number)),
            None => Err(Condition::NO_SUCH_PLACE),
        };
    }
    match spec.pos {
        Some(byte) => at_byte(byte, size_for(connection, spec.input)),
        None => Ok(Start::Here),
    }
}
