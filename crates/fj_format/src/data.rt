// Whether items have a data edit descriptor.
ghost use Rattle.std.specs.Prelude.{◌≡◌};
ghost use Rattle.fj_format.specs.Unfolding.{has_data, pass, written_out};

use crate::item::FormatItem;

/// Whether an item has a data descriptor.
#[cycle(data)]
fn item_has_data(item: &FormatItem) -> bool
    ensures { result ≡ has_data (written_out item.now) }
{
    match item {
        FormatItem::Field { r, .. } => *r > 0,
        FormatItem::Group { r, items } => *r > 0 && have_data(items.as_slice()),
        FormatItem::Unlimited { items } => have_data(items.as_slice()),
        FormatItem::Slash(_) => false,
        FormatItem::Str(_)
        | FormatItem::Tab(_)
        | FormatItem::Left(_)
        | FormatItem::Right(_)
        | FormatItem::Skip(_)
        | FormatItem::Colon
        | FormatItem::Mode(_) => false,
    }
}

/// Whether some item is a data edit descriptor or has one inside (ISO/IEC 1539-1:2004, 10.2.1).
#[cycle(data)]
pub fn have_data(items: &[FormatItem]) -> bool
    ensures { result ≡ has_data (pass items.now) }
{
    for item in items {
        if item_has_data(item) {
            return true;
        }
    }
    false
}
