// A format as a whole (ISO/IEC 1539-1:2004, 10.1 and 10.2).
ghost use Rattle.std.specs.Prelude.{◌≡◌, ◌<◌, ◌≤◌, ◌^◌, IfOk, MatchOption, length, All};
ghost use Rattle.fj_format.specs.Parsing.{Parses, ParsesItems};
ghost use Rattle.fj_format.specs.Sound.{IsSound, IsWritten};
ghost use Rattle.fj_format.specs.Unfolding.{height, pass};
ghost use Rattle.fj_format.specs.Within.{IsStepWithin};

use crate::count::{MOST_STEPS, pass_count};
use crate::fault::FormatFault;
use crate::item::FormatItems;
use crate::scanner::Scanner;
use std::alloc::{AllocError, Global};
use std::marker::Model;
use std::sync::Arc;

/// A format (ISO/IEC 1539-1:2004, 10.1), seen as the list of its items, which its clones share.
#[derive(Drop)]
pub struct Format {
    items: Arc<FormatItems, Global>,
}

impl Model for Format {
    ghost use Rattle.std.specs.Prelude.{List};
    ghost use Rattle.fj_format.specs.declared.item.FormatItem.{FormatItem};
    ghost use Rattle.fj_format.specs.contracts.item.FormatItem as item;
    ghost use Rattle.std.specs.Coded.{codes};

    ghost Value = { List FormatItem };

    ghost coded = { Prim.hlevel (codes, item.the_row.coded) };

    ghost use Rattle.fj_format.specs.Sound.{IsSound};

    ghost view = { λ format. format.items.value };

    ghost invariant = { λ format. IsSound format.items.value };
}

impl Format {
    /// The format of these items; `None` where one pass of it has more than 1,000,000 elementary items.
    pub fn of(alloc: Global, items: FormatItems) -> Result<Option<Format>, AllocError>
        requires { IsWritten items }
        ensures { IfOk result (λ o. MatchOption o (1000000 < length (pass items)) (λ format. (format ≡ items) × (length (pass items) ≤ 1000000))) }
    {
        if pass_count(&items) > MOST_STEPS {
            return Ok(None);
        }
        let items = Arc::new(alloc, items)?;
        Ok(Some(Format { items }))
    }

    /// Its items.
    pub fn items(&self) -> &FormatItems
        ensures value { result.now ≡ self.now }
        ensures sound { IsSound self.now }
        ensures low { height self.now ≤ 31 }
        ensures within { All IsStepWithin (pass self.now) }
    {
        &self.items
    }

    /// The same format once more, of the same items.
    pub fn try_clone(&self) -> Result<Format, AllocError>
        ensures { IfOk result (λ copy. copy ≡ self.now) }
    {
        Ok(Format {
            items: Arc::try_clone(&self.items)?,
        })
    }
}

/// Reads a format (ISO/IEC 1539-1:2004, 10.1.1, 10.1.2 and 10.2). Blanks and tabs have no effect outside strings, nor has anything
/// after the last parenthesis. `NotAFormat` says how many bytes the longest prefix has that begins a format; `TooMany` comes where
/// one pass has more than 1,000,000 elementary items.
pub fn parse(alloc: Global, text: &[u8]) -> Result<Format, FormatFault>
    requires { length text.now < 2 ^ 32 }
    ensures { Parses text.now result }
{
    let items = parse_items(alloc, text)?;
    match Format::of(alloc, items)? {
        Some(format) => Ok(format),
        None => Err(FormatFault::TooMany),
    }
}

/// Reads the items of a format as `parse` does (ISO/IEC 1539-1:2004, 10.2), however long one pass of it is: `NotAFormat` comes, and
/// never `TooMany`.
pub fn parse_items(alloc: Global, text: &[u8]) -> Result<FormatItems, FormatFault>
    requires { length text.now < 2 ^ 32 }
    ensures { ParsesItems text.now result }
{
    let mut scanner = Scanner::new(alloc);
    for (i, c) in text.iter().enumerate() {
        if !scanner.take(*c)? {
            return Err(FormatFault::NotAFormat { at: i as u32 });
        }
        if scanner.is_done() {
            return Ok(scanner.into_items());
        }
    }
    Err(FormatFault::NotAFormat {
        at: text.len() as u32,
    })
}
