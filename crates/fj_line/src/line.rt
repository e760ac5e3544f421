// A line that is written character by character, with tabs (ISO/IEC 1539-1:2004, 10.7.1).
ghost use Rattle.std.specs.Prelude.{◌≡◌, ◌+◌, ◌≤◌, ◌^◌, length, OnOk, OnErr};
ghost use Rattle.fj_line.specs.declared.moves.Move.TheVariants.{To, Back, Ahead};
ghost use Rattle.fj_line.specs.Line.{empty_line, most_bytes, moved, written};

use crate::moves::Move;
use crate::place::write_at;
use fj_value::Text;
use std::alloc::{AllocError, Global};
use std::marker::Model;

/// A line, and the position in it. Positions count from 0 at the left tab limit. A move writes nothing; a position that
/// was passed is blank once a later one is written.
#[derive(Drop)]
pub struct Line {
    text: Text,
    at: u64,
}

impl Model for Line {
    ghost use Rattle.std.specs.Prelude.{◌≤◌, ◌^◌};
    ghost use Rattle.fj_line.specs.Line.{LineState};

    ghost Value = { LineState };

    ghost view = { λ line. record { at = line.at; text = line.text } };

    ghost invariant = { λ line. line.at ≤ 2 ^ 63 };
}

impl Line {
    pub fn new(alloc: Global) -> Line
        ensures { result ≡ empty_line }
    {
        Line {
            text: Text::new(alloc),
            at: 0,
        }
    }

    /// Moves the position.
    pub fn go(&mut self, how: Move)
        ensures { self.new ≡ moved how self.old }
    {
        self.at = how.from(self.at);
    }

    /// `Tn`: to the n-th character.
    pub fn tab(&mut self, n: u32)
        requires { 1 ≤ n }
        ensures { self.new ≡ moved (To n) self.old }
    {
        self.go(Move::To(n));
    }

    /// `TLn`: so many characters back, but not before the left tab limit.
    pub fn tab_left(&mut self, n: u32)
        ensures { self.new ≡ moved (Back n) self.old }
    {
        self.go(Move::Back(n));
    }

    /// `TRn` or `nX`: so many characters forward.
    pub fn tab_right(&mut self, n: u32)
        ensures { self.new ≡ moved (Ahead n) self.old }
    {
        self.go(Move::Ahead(n));
    }

    /// The position, which is 0 at the left tab limit.
    pub fn position(&self) -> u64
        ensures { result ≡ self.now.at }
    {
        self.at
    }

    /// How many characters the text has.
    pub fn width(&self) -> u64
        ensures { result ≡ length self.now.text }
    {
        self.text.len() as u64
    }

    /// Writes at the position, over what stands there, and moves behind. Want of memory changes nothing.
    pub fn put(&mut self, bytes: &[u8]) -> Result<(), AllocError>
        requires { self.old.at + length bytes.now ≤ most_bytes }
        ensures ok { OnOk result (self.new ≡ written bytes.now self.old) }
        ensures err { OnErr result (self.new ≡ self.old) }
    {
        self.at = write_at(&mut self.text, 0, self.at, bytes)?;
        Ok(())
    }

    pub fn text(&self) -> &[u8]
        ensures { result.now ≡ self.now.text }
    {
        self.text.bytes()
    }

    /// Begins a new line. It keeps the memory.
    pub fn clear(&mut self)
        ensures { self.new ≡ empty_line }
    {
        self.text.clear();
        self.at = 0;
    }
}
