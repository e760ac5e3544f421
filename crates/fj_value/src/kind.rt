// Kinds of variables and literals.
ghost use Rattle.std.specs.Prelude.{◌≡◌};
ghost use Rattle.fj_value.specs.Kind.{integer_bits};

/// A type with its kind or length.
#[derive(Clone, Copy, Debug, PartialEq, Eq)]
pub enum Kind {
    /// INTEGER(4).
    Int4,
    /// INTEGER(8).
    Int8,
    Logical,
    /// CHARACTER of this length.
    Chars(u32),
}

impl Kind {
    /// The bits of an integer kind.
    pub fn integer_bits(self) -> Option<u32>
        ensures { result ≡ integer_bits self }
    {
        match self {
            Kind::Int4 => Some(32),
            Kind::Int8 => Some(64),
            Kind::Logical | Kind::Chars(_) => None,
        }
    }
}
