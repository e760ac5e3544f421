// Texts of bytes.
ghost use Rattle.std.specs.Prelude.{◌≡◌, ◌==◌, [], ◌++◌, ◌+◌, ◌-◌, ◌≤◌, IfOk, OnOk, OnErr, length, take, drop, replicate, IsSome, ◌↔◌, ◌<◌};
ghost use Rattle.std.specs.Option.{option_to_list};
ghost use Rattle.fj_value.specs.Reading.{assigned_text};

use std::alloc::{AllocError, Global};
use std::marker::Model;

/// A text of any bytes, seen as their list.
#[derive(Debug, Drop)]
pub struct Text {
    bytes: Vec<u8>,
}

impl Model for Text {
    ghost use Rattle.std.specs.Prelude.{List, ℕ};

    ghost Value = { List ℕ };

    ghost view = { λ text. text.bytes.items };
}

impl Text {
    pub fn new(alloc: Global) -> Text
        ensures { result ≡ [] }
    {
        Text {
            bytes: Vec::new(alloc),
        }
    }

    pub fn from_bytes(alloc: Global, bytes: &[u8]) -> Result<Text, AllocError>
        ensures { IfOk result (λ text. text ≡ bytes.now) }
    {
        Ok(Text {
            bytes: Vec::from_slice(alloc, bytes)?,
        })
    }

    /// The text of bytes that are there already. Takes no memory.
    pub fn from_vec(bytes: Vec<u8>) -> Text
        ensures { result ≡ bytes.items }
    {
        Text { bytes }
    }

    /// The bytes by themselves, where a push behind a `reserve` takes no memory.
    pub fn into_vec(self) -> Vec<u8>
        ensures { result.items ≡ self }
    {
        self.bytes
    }

    /// Makes room for so many more bytes. It changes none.
    pub fn reserve(&mut self, more: usize) -> Result<(), AllocError>
        ensures { self.new ≡ self.old }
    {
        self.bytes.reserve(more)
    }

    /// Takes the last byte off.
    pub fn pop(&mut self) -> Option<u8>
        ensures bytes { self.old ≡ self.new ++ option_to_list result }
        ensures some { IsSome result ↔ (0 < length self.old) }
    {
        self.bytes.pop()
    }

    pub fn bytes(&self) -> &[u8]
        ensures { result.now ≡ self.now }
    {
        &self.bytes
    }

    pub fn len(&self) -> usize
        ensures { result ≡ length self.now }
    {
        self.bytes.len()
    }

    pub fn is_empty(&self) -> bool
        ensures { result ≡ (length self.now == 0) }
    {
        self.bytes.is_empty()
    }

    /// The allocator that it was made with.
    pub fn allocator(&self) -> Global {
        *self.bytes.allocator()
    }

    /// Adds bytes at the end. Want of memory changes nothing.
    pub fn push_all(&mut self, bytes: &[u8]) -> Result<(), AllocError>
        ensures ok { OnOk result (self.new ≡ self.old ++ bytes.now) }
        ensures err { OnErr result (self.new ≡ self.old) }
    {
        self.bytes.extend_from_slice(bytes)
    }

    /// Adds so many copies of one byte at the end. Want of memory changes nothing.
    pub fn push_copies(&mut self, byte: u8, count: u32) -> Result<(), AllocError>
        ensures ok { OnOk result (self.new ≡ self.old ++ replicate count byte) }
        ensures err { OnErr result (self.new ≡ self.old) }
    {
        let len = self.bytes.len();
        self.bytes.resize(len + count as usize, byte)
    }

    /// Adds copies of one byte up to a length, where the text is shorter. Want of memory changes nothing.
    pub fn fill_to(&mut self, len: usize, byte: u8) -> Result<(), AllocError>
        ensures ok { OnOk result (self.new ≡ self.old ++ replicate (len - length self.old) byte) }
        ensures err { OnErr result (self.new ≡ self.old) }
    {
        let len = len.max(self.bytes.len());
        self.bytes.resize(len, byte)
    }

    /// Writes bytes over those from a place on.
    pub fn write_over(&mut self, at: usize, bytes: &[u8])
        requires { at + length bytes.now ≤ length self.old }
        ensures { self.new ≡ take at self.old ++ (bytes.now ++ drop (at + length bytes.now) self.old) }
    {
        self.bytes[at..at + bytes.len()].copy_from_slice(bytes);
    }

    /// Keeps the first `len` bytes.
    pub fn truncate(&mut self, len: usize)
        ensures { self.new ≡ take len self.old }
    {
        self.bytes.truncate(len);
    }

    /// Characters as an assignment gives them to a variable of a length: cut on the right, or with blanks behind them.
    pub fn assigned(alloc: Global, length: u32, chars: &[u8]) -> Result<Text, AllocError>
        ensures { IfOk result (λ text. text ≡ assigned_text length chars.now) }
    {
        let taken = chars.len().min(length as usize);
        let mut text = Text::from_bytes(alloc, &chars[..taken])?;
        text.push_copies(b' ', length - taken as u32)?;
        Ok(text)
    }

    /// The same of a text that is there already. Want of memory changes nothing.
    pub fn assign_length(&mut self, length: u32) -> Result<(), AllocError>
        ensures ok { OnOk result (self.new ≡ assigned_text length self.old) }
        ensures err { OnErr result (self.new ≡ self.old) }
    {
        let count = self.bytes.len();
        if count >= length as usize {
            self.bytes.truncate(length as usize);
            return Ok(());
        }
        self.push_copies(b' ', length - count as u32)
    }

    pub fn try_clone(&self) -> Result<Text, AllocError>
        ensures { IfOk result (λ text. text ≡ self.now) }
    {
        Ok(Text {
            bytes: self.bytes.clone()?,
        })
    }

    pub fn clear(&mut self)
        ensures { self.new ≡ [] }
    {
        self.bytes.clear();
    }
}
