// Where in a format a reader stands (ISO/IEC 1539-1:2004, 10.2).
ghost use Rattle.std.specs.Prelude.{◌≡◌};
ghost use Rattle.fj_format.specs.Grammar.{integer_edit, moved, most};
ghost use Rattle.fj_format.specs.Reading.{smallest, greatest, takes_text};

use crate::item::FormatItem;
use fj_value::Edit;

/// The base of the digits that `B`, `O`, `I` or `Z` edits.
#[derive(Clone, Copy)]
pub enum Radix {
    Two,
    Eight,
    Ten,
    Sixteen,
}

/// What a data edit descriptor is for: `B`, `O`, `I` and `Z`, `L`, `A`, or `G`.
#[derive(Clone, Copy)]
pub enum FieldKind {
    Integer(Radix),
    Logical,
    Characters,
    Generalized,
}

/// `T`, `TL` or `TR`.
#[derive(Clone, Copy)]
pub enum Tabbing {
    To,
    Left,
    Right,
}

/// What a number is for.
#[derive(Clone, Copy)]
pub enum Purpose {
    /// The count before an item.
    Count,
    /// The width w, behind this count, if one is written.
    Width { count: Option<u32>, kind: FieldKind },
    /// The least number of digits m, in a field of this repeat count and width.
    LeastDigits { r: u32, radix: Radix, w: u32 },
    /// The d of `Gw.d`.
    Decimals { r: u32, w: u32 },
    /// The e of `Gw.dEe`.
    ExponentDigits { r: u32, w: u32, d: u32 },
    /// The n of `Tn`, `TLn` or `TRn`.
    Tabs(Tabbing),
}

/// Where a reader stands.
#[derive(Clone, Copy)]
pub enum FormatPlace {
    /// Before the first parenthesis.
    Begin,
    /// Behind the first parenthesis.
    Opened,
    /// An item has to come.
    Wanted,
    /// Behind an item; whether it was a slash or a colon.
    Behind(bool),
    /// The first digit of a number has to come, or what may stand in its place.
    First(Purpose),
    /// Behind the first digits of a number.
    More(Purpose, u32),
    /// Behind the first letter of `S`, `SP` or `SS`.
    SignLetter,
    /// Behind the first letter of `DC` or `DP`.
    DecimalLetter,
    /// Behind the star of the unlimited item, whose parenthesis has to come.
    Starred,
    /// Behind the unlimited item, where the last parenthesis has to come.
    Closing,
    /// Behind the last parenthesis.
    Done,
}

/// The greatest number in a format.
pub const LIMIT: u32 = 65536;

impl Radix {
    pub fn edit(self, w: u32, m: Option<u32>) -> Edit
        ensures { result ≡ integer_edit self w m }
    {
        match self {
            Radix::Two => Edit::Bits { base: 2, w, m },
            Radix::Eight => Edit::Bits { base: 8, w, m },
            Radix::Ten => Edit::Int { w, m },
            Radix::Sixteen => Edit::Bits { base: 16, w, m },
        }
    }
}

impl Tabbing {
    pub fn item(self, n: u32) -> FormatItem
        ensures { result ≡ moved self n }
    {
        match self {
            Tabbing::To => FormatItem::Tab(n),
            Tabbing::Left => FormatItem::Left(n),
            Tabbing::Right => FormatItem::Right(n),
        }
    }
}

impl Purpose {
    /// The smallest number that may stand here.
    pub fn smallest(self) -> u32
        ensures { result ≡ smallest self }
    {
        match self {
            Purpose::Width {
                kind: FieldKind::Integer(_) | FieldKind::Generalized,
                ..
            } => 0,
            Purpose::LeastDigits { .. } | Purpose::Decimals { .. } => 0,
            _ => 1,
        }
    }

    /// The greatest number that may stand here.
    pub fn greatest(self) -> u32
        ensures { result ≡ greatest self }
    {
        match self {
            Purpose::LeastDigits { w, .. } if w != 0 => w,
            _ => LIMIT,
        }
    }
}

impl FormatPlace {
    /// Whether a character string may come.
    pub fn takes_string(self) -> bool
        ensures { result ≡ takes_text self }
    {
        match self {
            FormatPlace::Opened | FormatPlace::Wanted => true,
            FormatPlace::Behind(free) => free,
            _ => false,
        }
    }
}
