// Which words are a form: each order, both spellings, what is repeated, missing or wrong.
use fj_report::{Form, read_words};
use std::alloc::{AllocError, Global};
use std::test::*;

/// Words of `run`, the number of workers, and whether a trace is asked for.
static RUNS: [(&str, u32, bool); 14] = [
    ("run", 4, false),
    ("run --trace", 4, true),
    ("run --workers 0", 0, false),
    ("run --workers=0", 0, false),
    ("run --workers 1 --trace", 1, true),
    ("run --trace --workers 2", 2, true),
    ("run --workers=3 --trace", 3, true),
    ("run --trace --workers=64", 64, true),
    ("run --workers 64", 64, false),
    ("run --workers 007", 7, false),
    ("run --workers 0000000064", 64, false),
    ("run --", 4, false),
    ("run --workers 5 --", 5, false),
    ("run --trace --workers=6 --", 6, true),
];

/// Words of `alone`, and whether a trace is asked for.
static ALONE: [(&str, bool); 4] = [
    ("alone", false),
    ("alone --trace", true),
    ("alone --", false),
    ("alone --trace --", true),
];

/// Words of `gen`, the seed, the count, and whether the text is asked for.
static GENERATED: [(&str, u32, u32, bool); 13] = [
    ("gen --seed 1 --count 2", 1, 2, false),
    ("gen --count 0 --seed 0", 0, 0, false),
    ("gen --seed=1 --count=2", 1, 2, false),
    ("gen --count=2 --seed 1", 1, 2, false),
    ("gen --seed 1 --count=2", 1, 2, false),
    ("gen --text --seed 1 --count 2", 1, 2, true),
    ("gen --text --count 2 --seed 1", 1, 2, true),
    ("gen --seed 1 --text --count 2", 1, 2, true),
    ("gen --count=2 --text --seed=1", 1, 2, true),
    ("gen --seed 1 --count 2 --text", 1, 2, true),
    ("gen --count 2 --seed 1 --text --", 1, 2, true),
    (
        "gen --seed 2147483647 --count 20000",
        2_147_483_647,
        20_000,
        false,
    ),
    ("gen --seed 0000000001 --count 0000000002", 1, 2, false),
];

/// Words that are no form.
static WRONG: [&str; 68] = [
    "",
    " ",
    "ALONE",
    "aloneness",
    "--workers 4",
    "--trace alone",
    "help",
    "alone alone",
    "alone --trace=1",
    "alone --trace=",
    "alone --trace true",
    "alone --trace --trace",
    "alone --workers 0",
    "alone --tr",
    "alone -t",
    "alone - ",
    "alone -- x",
    "alone --help",
    "alone -h",
    "alone --version",
    "alone help",
    "check check",
    "check --trace",
    "check -- --",
    "run run",
    "run x",
    "run --trace --trace",
    "run --trace=1",
    "run --trace=true",
    "run --text",
    "run --workers",
    "run --workers=",
    "run --workers ",
    "run --trace --workers",
    "run --workers --trace",
    "run --workers --",
    "run --workers -- 4",
    "run --workers x",
    "run --workers=x",
    "run --workers 65",
    "run --workers=65",
    "run --workers +4",
    "run --workers -4",
    "run --workers=-4",
    "run --workers 4x",
    "run --workers 0x4",
    "run --workers 00000000004",
    "run --workers 4294967296",
    "run --workers 4 --workers 4",
    "run --workers=4 --workers 4",
    "run --workers 4 --workers=4",
    "run --workers=4 --trace --workers=4",
    "run --worker 4",
    "run -w 4",
    "gen",
    "gen --seed 1",
    "gen --count 2",
    "gen --text",
    "gen --seed --count 2",
    "gen --seed 1 --count",
    "gen --seed= --count=2",
    "gen --seed 1 --count 2 --seed 1",
    "gen --seed 1 --count=2 --count 2",
    "gen --text --seed 1 --count 2 --text",
    "gen --seed 1 --count 2 --text=1",
    "gen --seed 2147483648 --count 1",
    "gen --seed 1 --count 20001",
    "gen --seed 1 --count 2 3",
];

/// The form of words that single blanks part.
fn form_of(alloc: Global, text: &str) -> Result<Form, AllocError> {
    let mut words = Vec::new(alloc);
    if !text.is_empty() {
        for word in text.split(' ') {
            words.push(String::from_str(alloc, word)?)?;
        }
    }
    read_words(alloc, &words)
}

/// Whether words are a form.
fn is_form(alloc: Global, words: &str, form: Form) -> bool {
    match form_of(alloc, words) {
        Ok(read) => read == form,
        Err(_) => false,
    }
}

#[test]
fn runs(rt: HostRuntime) {
    for (words, workers, trace) in RUNS.iter() {
        let form = Form::Run {
            workers: *workers,
            trace: *trace,
        };
        assert!(rt; is_form(rt.alloc(), words, form), "{words}");
    }
}

#[test]
fn runs_alone(rt: HostRuntime) {
    for (words, trace) in ALONE.iter() {
        let form = Form::Alone { trace: *trace };
        assert!(rt; is_form(rt.alloc(), words, form), "{words}");
    }
}

#[test]
fn checks(rt: HostRuntime) {
    for words in ["check", "check --"].iter() {
        assert!(rt; is_form(rt.alloc(), words, Form::Check), "{words}");
    }
}

#[test]
fn makes_decks(rt: HostRuntime) {
    for (words, seed, count, text) in GENERATED.iter() {
        let form = Form::Gen {
            seed: *seed,
            count: *count,
            text: *text,
        };
        assert!(rt; is_form(rt.alloc(), words, form), "{words}");
    }
}

#[test]
fn wrong_words(rt: HostRuntime) {
    for words in WRONG.iter() {
        assert!(rt; is_form(rt.alloc(), words, Form::Wrong), "{words}");
    }
}
