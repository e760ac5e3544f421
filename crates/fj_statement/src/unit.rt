// Units as statements name them, and what INQUIRE asks about.
ghost use Rattle.std.specs.Prelude.{◌≡◌};
ghost use Rattle.fj_statement.specs.Units.{held_number, internal_of, is_outside, new_code, number_of, number_to_code, number_from_code, numbered, place_held, place_new};

use fj_modes::FileName;
use fj_value::Place;

/// An internal file: its records are the elements of characters (ISO/IEC 1539-1:2004, 9.3).
#[derive(Clone, Copy, PartialEq, Eq)]
pub enum InternalFile {
    /// One element, or a scalar.
    One(Place),
    /// All elements of an array.
    Whole { var: u32 },
}

/// A unit as a statement names it (ISO/IEC 1539-1:2004, 9.4.1). Its number stands as a code: one below 0 as 4,294,967,296
/// less its amount, and one that no unit has as 4,294,967,295.
#[derive(Clone, Copy, PartialEq, Eq)]
pub enum UnitRef {
    /// `*`, of WRITE alone.
    Star,
    Number(u32),
    /// The integer at a place. The number is the one that it has when the statement begins; a text leaves it 0.
    Held { place: Place, number: u32 },
    /// NEWUNIT=, of OPEN alone (ISO/IEC 1539-1:2010, 9.5.6.12). The number is the one that the unit is given when the statement
    /// begins; a text leaves it 0.
    New { place: Place, number: u32 },
    /// Of READ and WRITE alone.
    Internal(InternalFile),
}

/// The largest number that a text gives a unit.
pub const LARGEST_UNIT: u32 = 2_147_483_647;

/// The code of the first number that NEWUNIT= gives, -10 (own). The others are below it, one after another.
pub const FIRST_NEW_UNIT: u32 = 4_294_967_286;

/// The code of a number.
pub fn unit_code(number: i64) -> u32
    ensures { result ≡ number_to_code number }
{
    const MOST: i64 = 2_147_483_647;
    if number > MOST || number < -MOST - 1 {
        return u32::MAX;
    }
    if number >= 0 {
        number as u32
    } else {
        (4_294_967_296 + number) as u32
    }
}

/// The number of a code.
pub fn unit_number(code: u32) -> i64
    ensures { result ≡ number_from_code code }
{
    if code <= LARGEST_UNIT {
        i64::from(code)
    } else {
        i64::from(code) - 4_294_967_296
    }
}

/// The code of the number that NEWUNIT= gives next, after one of them.
pub fn next_new_unit(code: u32) -> u32
    ensures { result ≡ new_code code }
{
    code.saturating_sub(1)
}

impl UnitRef {
    /// The code of its number; `*` and an internal file have none.
    pub fn number(self) -> Option<u32>
        ensures { result ≡ number_of self }
    {
        match self {
            UnitRef::Star => None,
            UnitRef::Number(number) => Some(number),
            UnitRef::Held { place: _, number } => Some(number),
            UnitRef::New { place: _, number } => Some(number),
            UnitRef::Internal(_) => None,
        }
    }

    /// The place whose value is its number.
    pub fn place_held(self) -> Option<Place>
        ensures { result ≡ place_held self }
    {
        match self {
            UnitRef::Held { place, number: _ } => Some(place),
            _ => None,
        }
    }

    /// The place that NEWUNIT= names.
    pub fn place_new(self) -> Option<Place>
        ensures { result ≡ place_new self }
    {
        match self {
            UnitRef::New { place, number: _ } => Some(place),
            _ => None,
        }
    }

    /// The internal file that it is.
    pub fn internal(self) -> Option<InternalFile>
        ensures { result ≡ internal_of self }
    {
        match self {
            UnitRef::Internal(file) => Some(file),
            _ => None,
        }
    }

    /// The number that stands in it; 0 where it is not of a place.
    pub fn held_number(self) -> u32
        ensures { result ≡ held_number self }
    {
        match self {
            UnitRef::Held { place: _, number } => number,
            UnitRef::New { place: _, number } => number,
            _ => 0,
        }
    }

    /// The same unit, with another number where it is of a place.
    pub fn numbered(self, code: u32) -> UnitRef
        ensures { result ≡ numbered code self }
    {
        match self {
            UnitRef::Held { place, number: _ } => UnitRef::Held {
                place,
                number: code,
            },
            UnitRef::New { place, number: _ } => UnitRef::New {
                place,
                number: code,
            },
            _ => self,
        }
    }

    /// Whether a unit of that number cannot be connected: OPEN takes a number from 0 to 2,147,483,647.
    pub fn is_outside(self) -> bool
        ensures { result ≡ is_outside self }
    {
        match self {
            UnitRef::Star => false,
            UnitRef::Number(number) => number > LARGEST_UNIT,
            UnitRef::Held { place: _, number } => number > LARGEST_UNIT,
            UnitRef::New {
                place: _,
                number: _,
            } => false,
            UnitRef::Internal(_) => false,
        }
    }
}

/// What an INQUIRE statement asks about: a unit or a file.
#[derive(Drop)]
pub enum Subject {
    Unit(UnitRef),
    File(FileName),
}
