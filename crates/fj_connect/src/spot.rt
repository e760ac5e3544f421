// Where a connection stands, and the statements that move it.
ghost use Rattle.std.specs.Prelude.{◌≡◌, false};

/// Whether the position is inside a record (ISO/IEC 1539-1:2004, 9.2.3).
#[derive(Clone, Copy, PartialEq, Eq)]
pub enum Within {
    /// Between two records, or there are none.
    Outside,
    /// In a record that nonadvancing input has begun to read.
    Reading,
    /// Behind the last character of a record that nonadvancing output has left open.
    Writing,
}

/// The statements that position a file (9.7).
#[derive(Clone, Copy, Debug, PartialEq, Eq)]
pub enum Positioning {
    Backspace,
    Rewind,
    Endfile,
}

/// Where a connection stands (ISO/IEC 1539-1:2004, 9.2.3). Places are counted in bytes from 0.
#[derive(Clone, Copy, PartialEq, Eq)]
pub struct Spot {
    /// The position: how many bytes stand before it.
    pub at: u64,
    /// Where the current record begins; the position, where there is none.
    pub start: u64,
    pub within: Within,
    /// Whether it is behind the endfile record.
    pub after_end: bool,
    /// For direct access the number behind that of the record read or written last, at first 1.
    pub next_number: u64,
}

/// A look at a connection: where it stands, and the length of its file.
#[derive(Clone, Copy, PartialEq, Eq)]
pub struct Look {
    pub spot: Spot,
    pub size: u64,
}

impl Spot {
    /// Between records, at another place.
    pub fn between(self, place: u64) -> Spot
        ensures { result ≡ record { at = place; start = place; within = Within.Outside; after_end = false; next_number = self.next_number } }
    {
        Spot {
            at: place,
            start: place,
            within: Within::Outside,
            after_end: false,
            next_number: self.next_number,
        }
    }
}
