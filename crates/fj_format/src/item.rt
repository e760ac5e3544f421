// The items of a format (ISO/IEC 1539-1:2004, 10.2).
ghost use Rattle.std.specs.Prelude.{◌≡◌, Bool};
ghost use Rattle.fj_format.specs.declared.item.FormatItem.TheFolds.{fold-FormatItem};
ghost use Rattle.fj_format.specs.Unfolding.{is_unbounded, unbounded_step, has_width_zero};

use fj_value::{Edit, Items, Text};

/// A change of a mode by a control edit descriptor (10.7.4, 10.7.6 and 10.7.8).
#[derive(Clone, Copy, PartialEq, Eq)]
pub enum ModeStep {
    /// `SP`.
    Plus,
    /// `SS`.
    Suppress,
    /// `S`.
    Usual,
    /// `BN`.
    BlankNull,
    /// `BZ`.
    BlankZero,
    /// `DC`.
    Comma,
    /// `DP`.
    Point,
}

/// An item of a format. `r` is the repeat count, 1 where none is written.
#[derive(Drop)]
pub enum FormatItem {
    /// A data edit descriptor.
    Field { r: u32, edit: Edit },
    /// Items in parentheses.
    Group { r: u32, items: Items<FormatItem> },
    /// A character string edit descriptor, without its delimiters.
    Str(Text),
    /// `Tn`.
    Tab(u32),
    /// `TLn`.
    Left(u32),
    /// `TRn`.
    Right(u32),
    /// `nX`; `X` is `1X`.
    Skip(u32),
    /// `r/`; `/` is `1/`.
    Slash(u32),
    /// `:`.
    Colon,
    /// `SP`, `SS`, `S`, `BN`, `BZ`, `DC` or `DP`.
    Mode(ModeStep),
    /// `*` and items in parentheses, which are used as often as needed (ISO/IEC 1539-1:2010, 10.3.1): the last item of a
    /// format, with a data edit descriptor inside.
    Unlimited { items: Items<FormatItem> },
}

pub type FormatItems = Items<FormatItem>;

/// Whether this is I, B, O, Z or G of width 0.
fn is_unbounded(edit: Edit) -> bool
    ensures { result ≡ is_unbounded edit }
{
    match edit {
        Edit::Int { w, .. } | Edit::Bits { w, .. } | Edit::General { w, .. } => w == 0,
        Edit::Log { .. } | Edit::Chars { .. } => false,
    }
}

#[cycle(width)]
fn item_has_width_zero(item: &FormatItem) -> bool
    ensures { result ≡ fold-FormatItem Bool unbounded_step item.now }
{
    match item {
        FormatItem::Field { edit, .. } => is_unbounded(*edit),
        FormatItem::Group { items, .. } => has_width_zero(items),
        FormatItem::Unlimited { items } => has_width_zero(items),
        _ => false,
    }
}

/// Whether an edit descriptor has width 0, at which the field is as wide as its value (10.6.1.1, and of G0 ISO/IEC
/// 1539-1:2010, 10.7.5.2).
#[cycle(width)]
pub fn has_width_zero(items: &FormatItems) -> bool
    ensures { result ≡ has_width_zero items.now }
{
    for item in items.as_slice() {
        if item_has_width_zero(item) {
            return true;
        }
    }
    false
}
