// What a statement ends with, and the rules that it may break.
ghost use Rattle.std.specs.Prelude.{◌≡◌};
ghost use Rattle.fj_value.specs.Condition.{code_of};

/// The condition that a statement ends with (ISO/IEC 1539-1:2004, 9.10).
#[derive(Clone, Copy, Debug, PartialEq, Eq)]
pub enum Condition {
    Fine,
    EndOfFile,
    EndOfRecord,
    /// An error by its number, from 1 on.
    Error(u8),
}

/// The errors by name (own). docs/DECKS.md has the table.
impl Condition {
    /// READ, WRITE or a motion on a unit that is not connected.
    pub const NOT_CONNECTED: Condition = Condition::Error(1);
    /// ASYNCHRONOUS='YES' on a unit that was not opened with it, and on `*`.
    pub const NOT_ASYNCHRONOUS: Condition = Condition::Error(2);
    /// OPEN whose specifiers do not go together.
    pub const BAD_SPECIFIERS: Condition = Condition::Error(3);
    /// CLOSE that keeps a scratch file.
    pub const SCRATCH_KEPT: Condition = Condition::Error(4);
    /// OPEN with STATUS='OLD' and no file.
    pub const NO_SUCH_FILE: Condition = Condition::Error(5);
    /// OPEN with STATUS='NEW' and a file.
    pub const FILE_EXISTS: Condition = Condition::Error(6);
    /// OPEN of a file that is connected to another unit.
    pub const FILE_TAKEN: Condition = Condition::Error(7);
    /// OPEN of the connected file with another value of what stays.
    pub const FIXED_MODE: Condition = Condition::Error(8);
    /// OPEN where as many units are connected as may be.
    pub const TOO_MANY_UNITS: Condition = Condition::Error(9);
    /// READ with ACTION='WRITE', WRITE or ENDFILE with ACTION='READ'.
    pub const FORBIDDEN_ACTION: Condition = Condition::Error(10);
    /// Items are left, and the format has no data edit descriptor for them.
    pub const NO_DESCRIPTOR: Condition = Condition::Error(11);
    /// The descriptor is not for the item's type.
    pub const WRONG_DESCRIPTOR: Condition = Condition::Error(12);
    /// The characters are not a value of the type.
    pub const NO_VALUE: Condition = Condition::Error(13);
    /// The value is out of the kind's range.
    pub const OUT_OF_RANGE: Condition = Condition::Error(14);
    /// A record is longer than its limit.
    pub const RECORD_TOO_LONG: Condition = Condition::Error(15);
    /// The transfer does not fit the connection.
    pub const UNFIT: Condition = Condition::Error(16);
    /// A direct record that does not exist.
    pub const NO_SUCH_RECORD: Condition = Condition::Error(17);
    /// A broken frame of an unformatted record.
    pub const BROKEN_RECORD: Condition = Condition::Error(18);
    /// More bytes are wanted than the unformatted record has.
    pub const RECORD_ENDS: Condition = Condition::Error(19);
    /// READ, WRITE or ENDFILE of sequential access after the endfile record.
    pub const AFTER_ENDFILE: Condition = Condition::Error(20);
    /// REC= below 1, POS= below 1 or above the length plus 1.
    pub const NO_SUCH_PLACE: Condition = Condition::Error(21);
    /// Namelist input without the group's name.
    pub const NO_GROUP: Condition = Condition::Error(22);
    /// Namelist input of a name or subscript that is not in the group.
    pub const NOT_IN_GROUP: Condition = Condition::Error(23);
    /// Namelist input of any other text.
    pub const BAD_GROUP_TEXT: Condition = Condition::Error(24);
    /// A file would pass its limit.
    pub const FILE_TOO_LONG: Condition = Condition::Error(25);
    /// The formatted output of a statement passes its limit.
    pub const OUTPUT_TOO_LONG: Condition = Condition::Error(26);
    /// A file that is opened has more bytes than the limit.
    pub const OPENED_TOO_LONG: Condition = Condition::Error(27);
    /// A motion that the access does not have.
    pub const NO_SUCH_MOTION: Condition = Condition::Error(28);
    /// A character string edit descriptor on input.
    pub const STRING_READ: Condition = Condition::Error(29);
    /// A record too short for a descriptor under PAD='NO'.
    pub const SHORT_RECORD: Condition = Condition::Error(30);
    /// WRITE on an internal file makes more records than it has.
    pub const TOO_MANY_RECORDS: Condition = Condition::Error(31);
    /// READ on an internal file with an element that holds the end of a line.
    pub const LINE_END_HELD: Condition = Condition::Error(32);
}

impl Condition {
    /// The number that IOSTAT= gets (9.10.4): 0 for `Fine`, -1 at the end of a file, -2 at the end of a record,
    /// else the error's number.
    pub fn code(&self) -> i32
        ensures { result ≡ code_of self.now }
    {
        match self {
            Condition::Fine => 0,
            Condition::EndOfFile => -1,
            Condition::EndOfRecord => -2,
            Condition::Error(number) => i32::from(*number),
        }
    }
}

/// The prohibitions on a statement, in the order in which they are looked at. The report prints their names.
#[derive(Clone, Copy, Debug, PartialEq, Eq, PartialOrd, Ord)]
pub enum Rule {
    /// It references a variable of a pending input.
    P1,
    /// It defines a variable of a pending transfer.
    P2,
    /// It references a variable that is undefined.
    P3,
    /// Its ID= is not the identifier of a transfer that is pending on its unit.
    P4,
    /// It defines a variable by a specifier that another of its parts defines or transfers.
    P5,
}
