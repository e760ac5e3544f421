// Classes of bytes, and the longest front of a text that is of one class.
ghost use Rattle.std.specs.Prelude.{◌≡◌, ◌≤◌, length};
ghost use Rattle.std.specs.List.{prefix_len};
ghost use Rattle.fj_syntax.specs.Class.{is_of};

/// A class of bytes.
#[derive(Clone, Copy)]
pub enum Class {
    /// A blank or a tab.
    Blank,
    /// A letter, a digit or an underscore.
    InWord,
    /// What may stand in a character literal: a tab, and every byte from the blank on.
    InLiteral,
    Digit,
}

pub fn is_of(class: Class, byte: u8) -> bool
    ensures { result ≡ is_of class byte }
{
    match class {
        Class::Blank => byte == b' ' || byte == b'\t',
        Class::InWord => byte.is_ascii_alphanumeric() || byte == b'_',
        Class::InLiteral => byte >= b' ' || byte == b'\t',
        Class::Digit => byte.is_ascii_digit(),
    }
}

/// How many bytes of the class a text begins with.
pub fn run_len(class: Class, bytes: &[u8]) -> usize
    ensures len { result ≡ prefix_len (is_of class) bytes.now }
    ensures within { result ≤ length bytes.now }
{
    bytes.iter().take_while(|byte| is_of(class, **byte)).count()
}
