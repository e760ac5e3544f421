// Why a call of the outside failed.
use std::fmt::{self, Display, Formatter};
use std::io::{Error, ErrorKind};

/// Why a call failed. It is for a person to read, and no contract speaks of it.
#[derive(Clone, Copy)]
pub enum Why {
    /// What the system answered, by its number.
    System(i32),
    /// What the library answered.
    Library(ErrorKind),
    /// What has the name is a folder, a pipe, a socket or a device.
    NotAFile,
    /// A file is shorter than when it was opened.
    Shorter,
    /// The system took no byte.
    NothingTaken,
    /// The file would pass the limit that the process has on a file.
    Limit,
    /// The place is behind every place of a file.
    TooFar,
    /// The name is longer than any of the system.
    NameTooLong,
}

impl Why {
    /// Whether there is no file of the name.
    pub(crate) fn is_missing(self) -> bool {
        match self {
            Why::System(code) => Error::from_raw_os_error(code).kind() == ErrorKind::NotFound,
            _ => false,
        }
    }
}

impl From<Error> for Why {
    fn from(error: Error) -> Why {
        match error.raw_os_error() {
            Some(code) => Why::System(code),
            None => Why::Library(error.kind()),
        }
    }
}

impl Display for Why {
    fn fmt<W: fmt::Write>(&self, f: &mut Formatter<W>) -> fmt::Result {
        match *self {
            Why::System(code) => Display::fmt(&Error::from_raw_os_error(code), f),
            Why::Library(kind) => Display::fmt(&kind, f),
            Why::NotAFile => f.write_str("it is a folder, a pipe, a socket or a device"),
            Why::Shorter => f.write_str("it is shorter than when it was opened"),
            Why::NothingTaken => f.write_str("the system took no byte"),
            Why::Limit => f.write_str("it would pass the limit on the size of a file (ulimit -f)"),
            Why::TooFar => f.write_str("the place is behind every place of a file"),
            Why::NameTooLong => f.write_str("the name is too long"),
        }
    }
}
