// Bytes as they stand in a line: `\n`, `\r`, `\t` and `\\` for a line feed, a carriage return, a tab and a backslash, and `\x` before
// two digits for any byte.
use fj_value::Text;
use std::alloc::{AllocError, Global};

/// The digit of a number below 16.
fn digit(value: u8) -> char {
    match value {
        0..=9 => char::from(b'0' + value),
        10..=15 => char::from(b'A' + (value - 10)),
        _ => '?',
    }
}

/// At most so many bytes from a place on, as they stand in a line.
pub fn escaped(alloc: Global, bytes: &[u8], at: usize, most: usize) -> Result<String, AllocError> {
    let mut line = String::new(alloc);
    for byte in bytes.iter().skip(at).take(most) {
        match *byte {
            b'\n' => line.push_str("\\n")?,
            b'\r' => line.push_str("\\r")?,
            b'\t' => line.push_str("\\t")?,
            b'\\' => line.push_str("\\\\")?,
            b' '..=b'~' => line.push(char::from(*byte))?,
            other => {
                line.push_str("\\x")?;
                line.push(digit(other >> 4))?;
                line.push(digit(other & 15))?;
            }
        }
    }
    Ok(line)
}

/// What was read of an escape.
#[derive(Clone, Copy)]
enum Front {
    Nothing,
    Backslash,
    X,
    Digit(u8),
}

/// The value of a digit; that of none is 0.
fn value_of(digit: u8) -> u8 {
    match digit {
        b'0'..=b'9' => digit - b'0',
        b'A'..=b'F' => digit - b'A' + 10,
        _ => 0,
    }
}

/// Adds the bytes that stand so in a line.
pub fn push_unescaped(into: &mut Text, line: &[u8]) -> Result<(), AllocError> {
    let mut front = Front::Nothing;
    for byte in line {
        front = match (front, *byte) {
            (Front::Nothing, b'\\') => Front::Backslash,
            (Front::Backslash, b'x') => Front::X,
            (Front::X, digit) => Front::Digit(value_of(digit)),
            (Front::Nothing, byte) => {
                into.push_all(&[byte])?;
                Front::Nothing
            }
            (Front::Backslash, byte) => {
                into.push_all(&[named(byte)])?;
                Front::Nothing
            }
            (Front::Digit(high), low) => {
                into.push_all(&[(high << 4) | value_of(low)])?;
                Front::Nothing
            }
        };
    }
    Ok(())
}

/// The byte that stands behind a backslash as a letter.
fn named(letter: u8) -> u8 {
    match letter {
        b'n' => b'\n',
        b'r' => b'\r',
        b't' => b'\t',
        other => other,
    }
}
