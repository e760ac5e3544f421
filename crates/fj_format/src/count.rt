// How many elementary items one pass of a format has (ISO/IEC 1539-1:2004, 10.3).
ghost use Rattle.std.specs.Prelude.{◌≡◌, ◌≤◌, ◌*◌, min, length};
ghost use Rattle.fj_format.specs.Unfolding.{pass, written_out};

use crate::item::{FormatItem, FormatItems};

/// The most that one pass of a format may have.
pub const MOST_STEPS: u64 = 1_000_000;

/// So many times a count, up to one more than a format may have.
fn repeated_count(r: u32, count: u64) -> u64
    requires { count ≤ 1000001 }
    ensures { result ≡ min (r * count) 1000001 }
{
    (u64::from(r) * count).min(MOST_STEPS + 1)
}

#[cycle(count)]
fn item_count(item: &FormatItem) -> u64
    ensures { result ≡ min (length (written_out item.now)) 1000001 }
{
    match item {
        FormatItem::Field { r, .. } => repeated_count(*r, 1),
        FormatItem::Slash(n) => repeated_count(*n, 1),
        FormatItem::Group { r, items } => repeated_count(*r, pass_count(items)),
        FormatItem::Unlimited { items } => pass_count(items),
        _ => 1,
    }
}

/// The elementary items of one pass, or one more than a format may have where there are more.
#[cycle(count)]
pub fn pass_count(items: &FormatItems) -> u64
    ensures { result ≡ min (length (pass items.now)) 1000001 }
{
    let mut count = 0;
    for item in items.as_slice() {
        let more = item_count(item);
        count = (count + more).min(MOST_STEPS + 1);
    }
    count
}
