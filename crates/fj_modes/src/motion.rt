// What moves the position of the file of a unit (ISO/IEC 1539-1:2004, 9.7 and 9.8).

/// A statement that moves the position of a file, or FLUSH (9.7 and 9.8).
#[derive(Clone, Copy, PartialEq, Eq)]
pub enum Motion {
    Backspace,
    Rewind,
    Endfile,
    Flush,
}
