// Texts at the limits: of bytes, of statements and of variables. Other texts are in fj_cases.
use fj_deck::{DeckFault, parse_deck};
use fj_statement::Reason;
use fj_value::Text;
use std::alloc::{AllocError, Global};

/// A deck of so many statements, or a line that is refused.
#[derive(Clone, Copy, PartialEq, Eq)]
enum Outcome {
    Deck(usize),
    Refused(u32, Reason),
    Memory,
}

use Outcome::{Deck, Refused};

fn answer_on(alloc: Global, text: &[u8]) -> Outcome {
    match parse_deck(alloc, text) {
        Ok(deck) => Deck(deck.statements().len()),
        Err(DeckFault::Refused { line, reason }) => Refused(line, reason),
        Err(DeckFault::Memory(_)) => Outcome::Memory,
    }
}

/// What a text is that was to be made.
fn answer_on_made(alloc: Global, text: Result<Text, AllocError>) -> Outcome {
    match text {
        Ok(text) => answer_on(alloc, text.bytes()),
        Err(_) => Outcome::Memory,
    }
}

/// A text in which something stands so often between two others.
fn many(
    alloc: Global,
    first: &[u8],
    part: &[u8],
    times: u32,
    last: &[u8],
) -> Result<Text, AllocError> {
    let mut text = Text::from_bytes(alloc, first)?;
    for _ in 0..times {
        text.push_all(part)?;
    }
    text.push_all(last)?;
    Ok(text)
}

/// What such a text is.
fn answer_on_many(alloc: Global, first: &[u8], part: &[u8], times: u32, last: &[u8]) -> Outcome {
    answer_on_made(alloc, many(alloc, first, part, times, last))
}

/// Texts at the limits of bytes and beyond.
static LENGTHS: [(&[u8], &[u8], u32, &[u8], Outcome); 8] = [
    (b"END", b" ", 997, b"\r\n", Deck(1)),
    (b"END", b" ", 998, b"\r\n", Refused(1, Reason::LineTooLong)),
    (b"END!", b"x", 996, b"", Deck(1)),
    (b"!", b"x", 1000, b"\nEND", Refused(1, Reason::LineTooLong)),
    (b"?", b"?", 1000, b"\nEND", Refused(1, Reason::LineTooLong)),
    (b"END\n", b" ", 1001, b"\n", Refused(2, Reason::LineTooLong)),
    (b"END\n", b"!\n", 2_097_150, b"", Deck(1)),
    (
        b"END\n",
        b"!\n",
        2_097_150,
        b"!",
        Refused(1, Reason::TextTooLong),
    ),
];

#[test]
fn lengths_are_limited(rt: HostRuntime) {
    for (number, (first, part, times, last, answer)) in LENGTHS.iter().enumerate() {
        let read = answer_on_many(rt.alloc(), first, part, *times, last);
        assert!(rt; read == *answer, "row {number}");
    }
}

/// How many assignments stand behind a declaration, what stands behind them, and the answer.
static COUNTS: [(u32, &[u8], Outcome); 3] = [
    (99_999, b"\n! x\nEND\n", Deck(100_000)),
    (100_000, b"\n! x\nEND", Refused(100_004, Reason::TooMany)),
    (100_000, b"A = B", Refused(100_002, Reason::Meaning)),
];

#[test]
fn statements_are_limited(rt: HostRuntime) {
    for (number, (times, last, answer)) in COUNTS.iter().enumerate() {
        let read = answer_on_many(rt.alloc(), b"INTEGER A\n", b"A=1\n", *times, last);
        assert!(rt; read == *answer, "row {number}");
    }
}

fn last_digit(number: u32) -> u8 {
    b'0' + (number % 10) as u8
}

/// Adds the declaration of a variable of its own.
fn declare(number: u32, text: &mut Text) -> Result<(), AllocError> {
    text.push_all(b"INTEGER V")?;
    for part in [1000, 100, 10, 1] {
        text.push_copies(last_digit(number / part), 1)?;
    }
    text.push_all(b"\n")
}

/// A text that declares so many variables, up to 10,000.
fn many_variables(alloc: Global, count: u32) -> Result<Text, AllocError> {
    let mut text = Text::new(alloc);
    for number in 0..count {
        declare(number, &mut text)?;
    }
    text.push_all(b"END\n")?;
    Ok(text)
}

/// What such a text is.
fn answer_on_variables(alloc: Global, count: u32) -> Outcome {
    answer_on_made(alloc, many_variables(alloc, count))
}

#[test]
fn variables_are_limited(rt: HostRuntime) {
    let beyond = Refused(4097, Reason::TooMany);
    assert!(rt; answer_on_variables(rt.alloc(), 4096) == Deck(1));
    assert!(rt; answer_on_variables(rt.alloc(), 4097) == beyond);
}
