// What is wrong with words that are no form, for a person. The forms are those of `fj_report`.
use std::fmt::{self, Display, Formatter};

/// An option of a command.
#[derive(Clone, Copy)]
struct Known {
    command: &'static str,
    option: &'static str,
    /// The most that its number may be. A flag has no number.
    most: Option<u32>,
}

/// The options of each command.
static OPTIONS: [Known; 7] = [
    Known {
        command: "run",
        option: "--workers",
        most: Some(64),
    },
    Known {
        command: "run",
        option: "--trace",
        most: None,
    },
    Known {
        command: "poll",
        option: "--workers",
        most: Some(64),
    },
    Known {
        command: "alone",
        option: "--trace",
        most: None,
    },
    Known {
        command: "gen",
        option: "--seed",
        most: Some(2_147_483_647),
    },
    Known {
        command: "gen",
        option: "--count",
        most: Some(20_000),
    },
    Known {
        command: "gen",
        option: "--text",
        most: None,
    },
];

/// The commands.
static COMMANDS: [&str; 5] = ["run", "alone", "poll", "check", "gen"];

/// What is wrong with words.
#[derive(Clone, Copy)]
pub enum Wrong<'a> {
    /// There are none, or one of them is no text.
    NoWords,
    /// The first is no command.
    NoCommand(&'a str),
    /// A word is no option of the command.
    NoOption(&'a str, &'a str),
    /// An option is given twice.
    Twice(&'a str),
    /// A flag has a value.
    HasValue(&'a str),
    /// A number is missing or out of range.
    NoNumber(&'a str, u32, &'a str),
    /// The command needs an option.
    Needs(&'a str, &'a str),
    /// Something else.
    NoForm,
}

impl Display for Wrong<'_> {
    fn fmt<W: fmt::Write>(&self, f: &mut Formatter<W>) -> fmt::Result {
        match *self {
            Wrong::NoWords => f.write_str("no command is given, or a word is no text"),
            Wrong::NoCommand(word) => write!(f, "there is no command \"{word}\""),
            Wrong::NoOption(command, word) => write!(f, "{command} has no option \"{word}\""),
            Wrong::Twice(option) => write!(f, "{option} is given twice"),
            Wrong::HasValue(option) => write!(f, "{option} has no value"),
            Wrong::NoNumber(option, most, "") => write!(
                f,
                "{option} needs a number from 0 to {most}"
            ),
            Wrong::NoNumber(option, most, found) => {
                write!(
                    f,
                    "{option} needs a number from 0 to {most}, and not \"{found}\""
                )
            }
            Wrong::Needs(command, option) => write!(f, "{command} needs {option}"),
            Wrong::NoForm => f.write_str("the words are no form"),
        }
    }
}

/// The option of a command that has a name.
fn option_of(command: &str, name: &str) -> Option<Known> {
    OPTIONS
        .iter()
        .find(|known| known.command == command && known.option == name)
        .copied()
}

/// Whether a word is a number in range.
fn is_number(word: &str, most: u32) -> bool {
    if !word.bytes().all(|byte| byte.is_ascii_digit()) {
        return false;
    }
    match word.parse::<u32>() {
        Ok(number) => number <= most,
        Err(_) => false,
    }
}

/// What is wrong with an option and what is behind its `=`, and whether the next word is its value.
fn wrong_option<'a>(
    known: Known,
    value: Option<&'a str>,
    next: Option<&'a str>,
) -> (Option<Wrong<'a>>, bool) {
    match (known.most, value) {
        (None, None) => (None, false),
        (None, Some(_)) => (Some(Wrong::HasValue(known.option)), false),
        (Some(most), Some(value)) => (wrong_number(known.option, most, value), false),
        (Some(most), None) => (wrong_number(known.option, most, next.unwrap_or("")), true),
    }
}

/// What is wrong with the value of an option.
fn wrong_number<'a>(option: &'static str, most: u32, value: &'a str) -> Option<Wrong<'a>> {
    if is_number(value, most) && !value.is_empty() {
        return None;
    }
    Some(Wrong::NoNumber(option, most, value))
}

/// A word with what is behind its `=`.
fn parts(word: &str) -> (&str, Option<&str>) {
    match word.split_once('=') {
        Some((name, value)) => (name, Some(value)),
        None => (word, None),
    }
}

/// Whether an option is among the words.
fn is_given(words: &[String], option: &str) -> bool {
    words.iter().any(|word| parts(word.as_str()).0 == option)
}

/// What is wrong with the words behind a command.
fn wrong_behind<'a>(command: &'a str, words: &'a [String]) -> Option<Wrong<'a>> {
    let mut is_value = false;
    for (at, word) in words.iter().enumerate() {
        if is_value {
            is_value = false;
            continue;
        }
        let (name, value) = parts(word.as_str());
        let Some(known) = option_of(command, name) else {
            return Some(Wrong::NoOption(command, word.as_str()));
        };
        if is_given(&words[..at], name) {
            return Some(Wrong::Twice(known.option));
        }
        let next = words.get(at + 1).map(String::as_str);
        let (wrong, takes) = wrong_option(known, value, next);
        if wrong.is_some() {
            return wrong;
        }
        is_value = takes;
    }
    None
}

/// The option that a command needs and that is missing.
fn missing<'a>(command: &'a str, words: &[String]) -> Option<Wrong<'a>> {
    if command != "gen" {
        return None;
    }
    if !is_given(words, "--seed") {
        return Some(Wrong::Needs(command, "--seed"));
    }
    if !is_given(words, "--count") {
        return Some(Wrong::Needs(command, "--count"));
    }
    None
}

/// What is wrong with words that are no form.
pub fn what_is_wrong(words: &[String]) -> Wrong<'_> {
    let Some((command, behind)) = words.split_first() else {
        return Wrong::NoWords;
    };
    let command = command.as_str();
    if !COMMANDS.iter().any(|known| *known == command) {
        return Wrong::NoCommand(command);
    }
    wrong_behind(command, behind)
        .or(missing(command, behind))
        .unwrap_or(Wrong::NoForm)
}
