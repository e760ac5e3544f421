// The characters of a value.
ghost use Rattle.std.specs.Prelude.{◌≡◌, IfOk, OnOk, OnErr};
ghost use Rattle.fj_value.specs.Reading.{assigned_text};

use crate::Text;
use std::alloc::AllocError;
use std::marker::Model;

/// Characters behind one pointer, seen as their list, so that a value stays small.
#[derive(Debug, Drop)]
pub struct Characters {
    text: Box<Text>,
}

impl Model for Characters {
    ghost use Rattle.std.specs.Prelude.{List, ℕ};

    ghost Value = { List ℕ };

    ghost view = { λ characters. characters.text.value };
}

impl Characters {
    /// Moves a text behind a pointer. Want of memory drops it.
    pub fn new(text: Text) -> Result<Characters, AllocError>
        ensures { IfOk result (λ characters. characters ≡ text) }
    {
        let alloc = text.allocator();
        Ok(Characters {
            text: Box::new(alloc, text)?,
        })
    }

    pub fn bytes(&self) -> &[u8]
        ensures { result.now ≡ self.now }
    {
        self.text.bytes()
    }

    /// Puts a text into the place of the old one, which it answers. Takes no memory.
    pub fn replace(&mut self, text: Text) -> Text
        ensures old { result ≡ self.old }
        ensures new { self.new ≡ text }
    {
        Box::replace(&mut self.text, text)
    }

    /// Gives them the length of a variable, as an assignment does: cut on the right, or with blanks behind them. Want of
    /// memory changes nothing.
    pub fn assign_length(&mut self, length: u32) -> Result<(), AllocError>
        ensures ok { OnOk result (self.new ≡ assigned_text length self.old) }
        ensures err { OnErr result (self.new ≡ self.old) }
    {
        self.text.assign_length(length)
    }

    pub fn try_clone(&self) -> Result<Characters, AllocError>
        ensures { IfOk result (λ characters. characters ≡ self.now) }
    {
        Characters::new(self.text.try_clone()?)
    }
}
