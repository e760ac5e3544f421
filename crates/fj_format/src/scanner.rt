// A format that is being read, one byte at a time: its strings, and the symbols between them (ISO/IEC 1539-1:2004, 10.2).
ghost use Rattle.std.specs.Prelude.{◌≡◌, ◌↔◌, [], IfOk, IsTrue};
ghost use Rattle.fj_format.specs.Reading.{next_text, Takes};
ghost use Rattle.fj_format.specs.Scanning.{first, outside_char, scan, IsClear};
ghost use Rattle.fj_format.specs.declared.place.FormatPlace.TheVariants.{Done};

use crate::item::{FormatItem, FormatItems};
use crate::place::FormatPlace;
use crate::reader::Reader;
use crate::symbol::{as_symbol, is_blank_char, is_quote_char};
use fj_value::Text;
use std::alloc::{AllocError, Global};
use std::mem;

/// Where a text stands with respect to strings. The byte is the delimiter.
#[derive(Clone, Copy)]
pub enum Quote {
    Outside,
    Inside(u8),
    /// Behind a delimiter, which ends the string unless it is doubled.
    Ended(u8),
}

/// What was read, and the string that is being read.
#[derive(Drop)]
pub struct Scanner {
    pub reader: Reader,
    pub quote: Quote,
    pub string: Text,
}

impl Scanner {
    pub fn new(alloc: Global) -> Scanner
        ensures { result ≡ first }
    {
        Scanner {
            reader: Reader::new(alloc),
            quote: Quote::Outside,
            string: Text::new(alloc),
        }
    }

    /// The items that were read.
    pub fn into_items(self) -> FormatItems
        ensures { result ≡ self.reader.items }
    {
        self.reader.items
    }

    /// Whether the last parenthesis was taken.
    pub fn is_done(&self) -> bool
        ensures { IsTrue result ↔ (self.now.reader.place ≡ Done) }
    {
        match self.reader.place {
            FormatPlace::Done => true,
            _ => false,
        }
    }

    fn take_outside(&mut self, c: u8) -> Result<bool, AllocError>
        requires { self.old.string ≡ [] }
        ensures { Takes result (outside_char self.old.reader c) self.new }
    {
        if is_blank_char(c) {
            self.quote = Quote::Outside;
            Ok(true)
        } else if is_quote_char(c) {
            if self.reader.place.takes_string() {
                self.quote = Quote::Inside(c);
                Ok(true)
            } else {
                Ok(false)
            }
        } else {
            self.quote = Quote::Outside;
            self.reader.take(as_symbol(c))
        }
    }

    fn end_string(&mut self) -> Result<bool, AllocError>
        ensures string { IfOk result (λ _. self.new.string ≡ []) }
        ensures reader { Takes result (next_text self.old.reader self.old.string) self.new.reader }
    {
        let empty = Text::new(self.string.allocator());
        let string = mem::replace(&mut self.string, empty);
        if self.reader.place.takes_string() {
            self.reader.put(FormatItem::Str(string), false)
        } else {
            Ok(false)
        }
    }

    /// Takes one more byte, and answers whether some format goes on so.
    pub fn take(&mut self, c: u8) -> Result<bool, AllocError>
        requires { IsClear self.old.quote self.old.string }
        ensures { Takes result (scan self.old c) self.new }
    {
        match self.quote {
            Quote::Outside => self.take_outside(c),
            Quote::Inside(q) => {
                if c == q {
                    self.quote = Quote::Ended(q);
                } else {
                    self.string.push_all(&[c])?;
                }
                Ok(true)
            }
            Quote::Ended(q) => {
                if c == q {
                    self.string.push_all(&[q])?;
                    self.quote = Quote::Inside(q);
                    Ok(true)
                } else if self.end_string()? {
                    self.take_outside(c)
                } else {
                    Ok(false)
                }
            }
        }
    }
}
