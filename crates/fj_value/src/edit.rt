// Data edit descriptors and the changeable modes (ISO/IEC 1539-1:2004, 10.6 and 9.4.1).
ghost use Rattle.std.specs.Prelude.{◌≡◌};
ghost use Rattle.fj_value.specs.Edit.{integer_widths, bits_widths, logical_width, text_width};

/// The characters round a character constant in list-directed and namelist output (DELIM=).
#[derive(Clone, Copy, Debug, PartialEq, Eq)]
pub enum Delim {
    Plain,
    Apostrophe,
    Quote,
}

/// The modes that a statement may change.
#[derive(Clone, Copy, Debug, PartialEq, Eq)]
pub struct EditModes {
    /// BLANK='ZERO'.
    pub blank_zero: bool,
    /// DECIMAL='COMMA'.
    pub comma: bool,
    pub delim: Delim,
    /// PAD='YES'.
    pub pad: bool,
    /// SIGN='PLUS'.
    pub plus: bool,
}

/// A data edit descriptor. Widths are in characters.
#[derive(Clone, Copy, Debug, PartialEq, Eq)]
pub enum Edit {
    /// `Iw` or `Iw.m`.
    Int { w: u32, m: Option<u32> },
    /// `B`, `O` or `Z`; the base is 2, 8 or 16.
    Bits { base: u8, w: u32, m: Option<u32> },
    /// `Lw`.
    Log { w: u32 },
    /// `A` or `Aw`.
    Chars { w: Option<u32> },
    /// `Gw.d`, and `G0`, of which w and d are 0 (ISO/IEC 1539-1:2010, 10.7.5.2).
    General { w: u32, d: u32 },
}

impl Edit {
    /// Where it is for integers in decimal, its width and least number of digits.
    pub fn integer_widths(self) -> Option<(u32, Option<u32>)>
        ensures { result ≡ integer_widths self }
    {
        match self {
            Edit::Int { w, m } => Some((w, m)),
            Edit::General { w, .. } => Some((w, None)),
            Edit::Bits { .. } | Edit::Log { .. } | Edit::Chars { .. } => None,
        }
    }

    /// Where it is for integers in base 2, 8 or 16, the base, its width and least number of digits.
    pub fn bits_widths(self) -> Option<(u8, u32, Option<u32>)>
        ensures { result ≡ bits_widths self }
    {
        match self {
            Edit::Bits { base, w, m } if base == 2 || base == 8 || base == 16 => {
                Some((base, w, m))
            }
            _ => None,
        }
    }

    /// Where it is for logicals, its width.
    pub fn logical_width(self) -> Option<u32>
        ensures { result ≡ logical_width self }
    {
        match self {
            Edit::Log { w } | Edit::General { w, .. } => Some(w),
            Edit::Int { .. } | Edit::Bits { .. } | Edit::Chars { .. } => None,
        }
    }

    /// Where it is for characters, its width, if it names one; G0 is A there.
    pub fn text_width(self) -> Option<Option<u32>>
        ensures { result ≡ text_width self }
    {
        match self {
            Edit::Chars { w } => Some(w),
            Edit::General { w, .. } => Some(if w == 0 { None } else { Some(w) }),
            Edit::Int { .. } | Edit::Bits { .. } | Edit::Log { .. } => None,
        }
    }
}
