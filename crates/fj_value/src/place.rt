// Places of variables, and identifiers of transfers.
ghost use Rattle.std.specs.Prelude.{◌<◌, ◌↔◌, IsTrue};

/// A variable by its number, from 0 on, and an element by its index, from 1 on. A scalar has index 1.
#[derive(Clone, Copy, Debug, PartialEq, Eq, PartialOrd, Ord)]
pub struct Place {
    pub var: u32,
    pub index: u32,
}

/// The identifier of a transfer (ID=), from 1 on; 0 for a synchronous one.
#[derive(Clone, Copy, Debug, PartialEq, Eq, PartialOrd, Ord)]
pub struct Tag(pub u32);

impl Tag {
    /// Whether it was given earlier than another.
    pub fn is_before(self, other: Tag) -> bool
        ensures { IsTrue result ↔ (self.0 < other.0) }
    {
        self < other
    }
}
