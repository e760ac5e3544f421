// Numbers and blanks in the width of a field (ISO/IEC 1539-1:2004, 10.6.1).
ghost use Rattle.std.specs.Prelude.{◌≡◌, ◌-◌, ◌≤◌, ◌++◌, length, take, replicate, OnOk, OnErr};
ghost use Rattle.fj_edit_out.specs.OutputField.{least_digits, adjusted};

use fj_value::Text;
use std::alloc::AllocError;

/// How many zeros stand before so many digits.
pub fn zeros_before(m: Option<u32>, digits: usize) -> u32
    requires { digits ≤ 64 }
    ensures { result ≡ least_digits m - digits }
{
    m.unwrap_or(1).saturating_sub(digits as u32)
}

fn append_parts(
    out: &mut Text,
    blanks: u32,
    sign: &[u8],
    zeros: u32,
    digits: &[u8],
) -> Result<(), AllocError>
    ensures ok { OnOk result (out.new ≡ out.old ++ (replicate blanks 32 ++ (sign.now ++ (replicate zeros 48 ++ digits.now)))) }
    ensures err { OnErr result (take (length out.old) out.new ≡ out.old) }
{
    if blanks > 0 {
        out.push_copies(b' ', blanks)?;
    }
    if !sign.is_empty() {
        out.push_all(sign)?;
    }
    if zeros > 0 {
        out.push_copies(b'0', zeros)?;
    }
    out.push_all(digits)
}

/// Appends all parts or nothing.
fn push_parts(
    out: &mut Text,
    blanks: u32,
    sign: &[u8],
    zeros: u32,
    digits: &[u8],
) -> Result<(), AllocError>
    ensures ok { OnOk result (out.new ≡ out.old ++ (replicate blanks 32 ++ (sign.now ++ (replicate zeros 48 ++ digits.now)))) }
    ensures err { OnErr result (out.new ≡ out.old) }
{
    let start = out.len();
    match append_parts(out, blanks, sign, zeros, digits) {
        Ok(()) => Ok(()),
        Err(error) => {
            out.truncate(start);
            Err(error)
        }
    }
}

/// Appends a number right adjusted. Want of memory changes nothing.
pub fn push_adjusted(
    out: &mut Text,
    w: u32,
    sign: &[u8],
    zeros: u32,
    digits: &[u8],
) -> Result<(), AllocError>
    requires sign_fits { length sign.now ≤ 1 }
    requires digits_fit { length digits.now ≤ 64 }
    ensures ok { OnOk result (out.new ≡ out.old ++ adjusted w (sign.now ++ (replicate zeros 48 ++ digits.now))) }
    ensures err { OnErr result (out.new ≡ out.old) }
{
    let length = sign.len() + zeros as usize + digits.len();
    if w == 0 {
        if length == 0 {
            out.push_copies(b' ', 1)
        } else {
            push_parts(out, 0, sign, zeros, digits)
        }
    } else if length > w as usize {
        out.push_copies(b'*', w)
    } else {
        push_parts(out, w - length as u32, sign, zeros, digits)
    }
}

/// Appends blanks and characters, or nothing.
pub fn push_behind_blanks(out: &mut Text, blanks: u32, characters: &[u8]) -> Result<(), AllocError>
    ensures ok { OnOk result (out.new ≡ out.old ++ (replicate blanks 32 ++ characters.now)) }
    ensures err { OnErr result (out.new ≡ out.old) }
{
    push_parts(out, blanks, b"", 0, characters)
}
