// What format control gives.
use fj_format::ModeStep;
use fj_value::Edit;

/// A step of format control (ISO/IEC 1539-1:2004, 10.3). `nX` is given as `Right`, and the end of a format without an
/// unlimited item as `Slash` where an item is left.
#[derive(Clone, Copy, PartialEq, Eq)]
pub enum Step<'a> {
    /// The next item is edited by this descriptor.
    Edit(Edit),
    /// The record ends.
    Slash,
    /// A character string.
    Str(&'a [u8]),
    /// To this character, from 1 on, counted from the left tab limit.
    Tab(u32),
    /// So many characters back.
    Left(u32),
    /// So many characters forward.
    Right(u32),
    Mode(ModeStep),
    /// Control has ended.
    Done,
    /// An item is left, and the format has no data descriptor for it.
    NoData,
}
