// What words give the options and flags of a command.
ghost use Rattle.std.specs.Prelude.{◌≡◌, IfOk, true, string_bytes, option_map};
ghost use Rattle.std.specs.Prelude.{map as list_map};
ghost use Rattle.clap.specs.Words.{app_of, found_of, is_simple_and_free, rows_of};
ghost use Rattle.fj_report.specs.Words.{given, has_flag, number_behind, number_up_to};

use clap::error::ErrorKind;
use clap::{ArgMatches, Command};
use fj_list::number;
use std::alloc::AllocError;

/// The most digits of a number.
const MOST_DIGITS: usize = 10;

/// What a command makes of words, and nothing where it finds a fault with them.
pub fn given<'a>(
    command: Command<'a>,
    words: &'a [String],
) -> Result<Option<ArgMatches<'a>>, AllocError>
    requires { is_simple_and_free (app_of command) ≡ true }
    ensures { IfOk result (λ matches. option_map (λ m. rows_of (found_of m)) matches ≡ given (app_of command.entry) (list_map string_bytes words.now)) }
{
    match command.try_get_matches_from(words) {
        Ok(matches) => Ok(Some(matches)),
        Err(error) => match error.kind() {
            ErrorKind::OutOfMemory => Err(AllocError),
            _ => Ok(None),
        },
    }
}

/// A number of one to ten decimal digits that is not above `most`.
fn number_up_to(most: u32, text: &str) -> Option<u32>
    ensures { result ≡ number_up_to most text.now }
{
    let digits = text.as_bytes();
    if digits.len() > MOST_DIGITS {
        return None;
    }
    let number = number(digits)?;
    if number > u64::from(most) {
        return None;
    }
    Some(number as u32)
}

/// The number behind an option.
pub fn number_behind(matches: &ArgMatches<'_>, name: &str, most: u32) -> Option<u32>
    ensures { result ≡ number_behind name.now most (rows_of (found_of matches.now)) }
{
    number_up_to(most, matches.get_str(name)?)
}

/// Whether the flag is there, which makes its value `true`.
pub fn has_flag(matches: &ArgMatches<'_>, name: &str) -> bool
    ensures { result ≡ has_flag name.now (rows_of (found_of matches.now)) }
{
    match matches.get_str(name) {
        Some(value) => value == "true",
        None => false,
    }
}
