// The part of a format that is used again at its end (ISO/IEC 1539-1:2004, 10.3).
ghost use Rattle.std.specs.Prelude.{◌≡◌, ◌≤◌};
ghost use Rattle.std.specs.List.{list_any};
ghost use Rattle.fj_format.specs.Unfolding.{again_items, is_group, is_unlimited, height, has_unlimited};

use fj_format::FormatItem;

/// Whether it is a group or the unlimited item.
fn is_group_item(item: &FormatItem) -> bool
    ensures { result ≡ is_group item.now }
{
    match item {
        FormatItem::Group { .. } | FormatItem::Unlimited { .. } => true,
        FormatItem::Field { .. }
        | FormatItem::Str(_)
        | FormatItem::Tab(_)
        | FormatItem::Left(_)
        | FormatItem::Right(_)
        | FormatItem::Skip(_)
        | FormatItem::Slash(_)
        | FormatItem::Colon
        | FormatItem::Mode(_) => false,
    }
}

/// Whether an item is a group or the unlimited item.
pub fn has_group(items: &[FormatItem]) -> bool
    ensures { result ≡ list_any is_group items.now }
{
    items.iter().any(|item| is_group_item(item))
}

/// Whether it is the unlimited item.
fn is_unlimited_item(item: &FormatItem) -> bool
    ensures { result ≡ is_unlimited item.now }
{
    match item {
        FormatItem::Unlimited { .. } => true,
        FormatItem::Field { .. }
        | FormatItem::Group { .. }
        | FormatItem::Str(_)
        | FormatItem::Tab(_)
        | FormatItem::Left(_)
        | FormatItem::Right(_)
        | FormatItem::Skip(_)
        | FormatItem::Slash(_)
        | FormatItem::Colon
        | FormatItem::Mode(_) => false,
    }
}

/// Whether an item is the unlimited item.
pub fn is_endless(items: &[FormatItem]) -> bool
    ensures { result ≡ has_unlimited items.now }
{
    items.iter().any(|item| is_unlimited_item(item))
}

/// The items from the last group or the unlimited item on, or all where there is none.
pub fn again_of(items: &[FormatItem]) -> &[FormatItem]
    ensures items { result.now ≡ again_items items.now }
    ensures low { height result.now ≤ height items.now }
{
    for i in (0..items.len()).rev() {
        if is_group_item(&items[i]) {
            return &items[i..];
        }
    }
    items
}
