// The text of a format: upper case, no blanks, all commas.
ghost use Rattle.std.specs.Prelude.{◌≡◌, [], ◌∷◌, ◌++◌, IfOk, OnOk, map, codes, decimal};
ghost use Rattle.fj_format.specs.Parsing.{IsOnlyFormat};
ghost use Rattle.fj_format.specs.Printing.{count_text, least_text, base_text, decimals_text, edit_text, mode_text, doubled, separator, in_parentheses, item_text, printed};

use crate::format::Format;
use crate::item::{FormatItem, FormatItems, ModeStep};
use fj_value::{Edit, Text};
use itoa::Buffer;
use std::alloc::{AllocError, Global};

fn push_number(n: u32, text: &mut Text) -> Result<(), AllocError>
    ensures { OnOk result (text.new ≡ text.old ++ decimal n) }
{
    let mut buffer = Buffer::new();
    text.push_all(buffer.format(n).as_bytes())
}

/// A repeat count, which is left out where it is 1.
fn push_count(r: u32, text: &mut Text) -> Result<(), AllocError>
    ensures { OnOk result (text.new ≡ text.old ++ count_text r) }
{
    if r == 1 {
        return Ok(());
    }
    push_number(r, text)
}

fn push_least(m: Option<u32>, text: &mut Text) -> Result<(), AllocError>
    ensures { OnOk result (text.new ≡ text.old ++ least_text m) }
{
    match m {
        None => Ok(()),
        Some(m) => {
            text.push_all(b".")?;
            push_number(m, text)
        }
    }
}

fn base_letter(base: u8) -> &'static [u8]
    ensures { result.now ≡ base_text base }
{
    match base {
        2 => b"B",
        8 => b"O",
        _ => b"Z",
    }
}

/// A letter and a number.
fn push_lettered(letters: &[u8], n: u32, text: &mut Text) -> Result<(), AllocError>
    ensures { OnOk result (text.new ≡ text.old ++ (letters.now ++ decimal n)) }
{
    text.push_all(letters)?;
    push_number(n, text)
}

/// `.d` behind a width, which G0 has not.
fn push_decimals(w: u32, d: u32, text: &mut Text) -> Result<(), AllocError>
    ensures { OnOk result (text.new ≡ text.old ++ decimals_text w d) }
{
    if w == 0 {
        return Ok(());
    }
    push_lettered(b".", d, text)
}

fn push_edit(edit: Edit, text: &mut Text) -> Result<(), AllocError>
    ensures { OnOk result (text.new ≡ text.old ++ edit_text edit) }
{
    match edit {
        Edit::Int { w, m } => {
            push_lettered(b"I", w, text)?;
            push_least(m, text)
        }
        Edit::Bits { base, w, m } => {
            push_lettered(base_letter(base), w, text)?;
            push_least(m, text)
        }
        Edit::Log { w } => push_lettered(b"L", w, text),
        Edit::Chars { w: None } => text.push_all(b"A"),
        Edit::Chars { w: Some(w) } => push_lettered(b"A", w, text),
        Edit::General { w, d } => {
            push_lettered(b"G", w, text)?;
            push_decimals(w, d, text)
        }
    }
}

fn mode_letters(step: ModeStep) -> &'static [u8]
    ensures { result.now ≡ mode_text step }
{
    match step {
        ModeStep::Plus => b"SP",
        ModeStep::Suppress => b"SS",
        ModeStep::Usual => b"S",
        ModeStep::BlankNull => b"BN",
        ModeStep::BlankZero => b"BZ",
        ModeStep::Comma => b"DC",
        ModeStep::Point => b"DP",
    }
}

/// A character of a string; an apostrophe is doubled.
fn push_character(c: u8, text: &mut Text) -> Result<(), AllocError>
    ensures { OnOk result (text.new ≡ text.old ++ doubled (c ∷ [])) }
{
    if c == b'\'' {
        text.push_all(b"''")
    } else {
        text.push_all(&[c])
    }
}

/// A string between apostrophes.
fn push_string(string: &[u8], text: &mut Text) -> Result<(), AllocError>
    ensures { OnOk result (text.new ≡ text.old ++ (codes "'" ++ (doubled string.now ++ codes "'"))) }
{
    text.push_all(b"'")?;
    for c in string {
        push_character(*c, text)?;
    }
    text.push_all(b"'")
}

/// The comma before an item, unless it is the first.
fn push_separator(i: usize, text: &mut Text) -> Result<(), AllocError>
    ensures { OnOk result (text.new ≡ text.old ++ separator i) }
{
    if i == 0 {
        return Ok(());
    }
    text.push_all(b",")
}

#[cycle(print)]
fn push_item(item: &FormatItem, text: &mut Text) -> Result<(), AllocError>
    ensures { OnOk result (text.new ≡ text.old ++ item_text item.now) }
{
    match item {
        FormatItem::Field { r, edit } => {
            push_count(*r, text)?;
            push_edit(*edit, text)
        }
        FormatItem::Group { r, items } => {
            push_count(*r, text)?;
            push_items(items, text)
        }
        FormatItem::Str(string) => push_string(string.bytes(), text),
        FormatItem::Tab(n) => push_lettered(b"T", *n, text),
        FormatItem::Left(n) => push_lettered(b"TL", *n, text),
        FormatItem::Right(n) => push_lettered(b"TR", *n, text),
        FormatItem::Skip(n) => {
            push_number(*n, text)?;
            text.push_all(b"X")
        }
        FormatItem::Slash(n) => {
            push_count(*n, text)?;
            text.push_all(b"/")
        }
        FormatItem::Colon => text.push_all(b":"),
        FormatItem::Mode(step) => text.push_all(mode_letters(*step)),
        FormatItem::Unlimited { items } => {
            text.push_all(b"*")?;
            push_items(items, text)
        }
    }
}

/// Items in parentheses.
#[cycle(print)]
fn push_items(items: &FormatItems, text: &mut Text) -> Result<(), AllocError>
    ensures { OnOk result (text.new ≡ text.old ++ in_parentheses (map item_text items.now)) }
{
    text.push_all(b"(")?;
    for (i, item) in items.as_slice().iter().enumerate() {
        push_separator(i, text)?;
        push_item(item, text)?;
    }
    text.push_all(b")")
}

/// A text that is read as this format and as no other (ISO/IEC 1539-1:2004, 10.2): upper case, all commas, and no blanks outside
/// strings.
pub fn print(alloc: Global, format: &Format) -> Result<Text, AllocError>
    ensures value { IfOk result (λ text. text ≡ printed format.now) }
    ensures reads { IfOk result (λ text. IsOnlyFormat text format.now) }
{
    let mut text = Text::new(alloc);
    push_items(format.items(), &mut text)?;
    Ok(text)
}
