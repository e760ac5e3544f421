// Lines and pages, with texts written out by hand.
ghost use Rattle.std.specs.Prelude.{OnOk};
ghost use Rattle.fj_line.specs.Page.{IsIn};

use Done::{End, Go, Put};
use fj_line::{Line, Move, Page, Unwritten};
use fj_value::{Condition, Text};
use std::alloc::{AllocError, Global};
use std::test::Fail;

/// A call on a line.
#[derive(Clone, Copy)]
enum Call {
    T(u32),
    L(u32),
    R(u32),
    P(&'static [u8]),
}

fn apply(line: &mut Line, call: Call) -> Result<(), Fail> {
    match call {
        Call::T(n) => {
            if n > 0 {
                line.tab(n);
            }
        }
        Call::L(n) => line.tab_left(n),
        Call::R(n) => line.tab_right(n),
        Call::P(bytes) => {
            let at = line.position();
            if at < 1000 && bytes.len() < 1000 {
                line.put(bytes)?;
            }
        }
    }
    Ok(())
}

use Call::{L, P, R, T};

/// Calls on an empty line, its text and its position.
static RUNS: [(&[Call], &[u8], u64); 19] = [
    (&[T(4), P(b"CD"), T(1), P(b"AB")], b"AB CD", 2),
    (&[], b"", 0),
    (&[R(5)], b"", 5),
    (&[R(2), P(b"")], b"", 2),
    (&[P(b"abc"), L(1), P(b"X")], b"abX", 3),
    (&[P(b"abc"), L(9), P(b"X")], b"Xbc", 1),
    (&[P(b"abc"), L(2), P(b"YZW")], b"aYZW", 4),
    (&[R(3), P(b"x")], b"   x", 4),
    (&[T(1), P(b"x")], b"x", 1),
    (&[T(2), P(b"c")], b" c", 2),
    (&[P(b"abc"), T(2), P(b" ")], b"a c", 2),
    (&[P(b"ab"), R(3), P(b"c"), L(1), R(2)], b"ab   c", 7),
    (&[T(10), T(3), P(b"q")], b"  q", 3),
    (&[P(b"abcdef"), T(3), P(b"")], b"abcdef", 2),
    (&[T(5), P(b"e"), T(3), P(b"c"), T(1), P(b"a")], b"a c e", 1),
    (&[P(b"12345"), T(4), P(b"abc")], b"123abc", 6),
    (&[P(b"ab"), L(1), L(1), L(1), P(b"c")], b"cb", 1),
    (&[T(4294967295), L(4294967290), P(b"z")], b"    z", 5),
    (&[P(b"a"), R(1), L(1), P(b"b")], b"ab", 2),
];

/// Whether calls come to that.
fn comes(line: &mut Line, calls: &[Call], text: &[u8], position: u64) -> Result<bool, Fail> {
    line.clear();
    for call in calls {
        apply(line, *call)?;
    }
    Ok(line.text() == text && line.position() == position && line.width() == text.len() as u64)
}

#[test]
fn lines(rt: HostRuntime) -> Result<(), Fail> {
    let mut line = Line::new(rt.alloc());
    for (number, (calls, text, position)) in RUNS.iter().enumerate() {
        assert!(rt; comes(&mut line, calls, text, *position)?, "row {number}");
    }
    Ok(())
}

/// What is done to a page.
#[derive(Clone, Copy)]
enum Done {
    Put(&'static [u8]),
    Go(Move),
    End,
}

fn carry_out(page: &mut Page, text: &mut Text, done: Done) -> Result<(), Unwritten>
    requires { IsIn page.old text.old }
    ensures within { OnOk result (IsIn page.new text.new) }
{
    match done {
        Done::Put(chars) => page.put(text, chars),
        Done::Go(how) => {
            page.go(how, text);
            Ok(())
        }
        Done::End => page.end_record(text),
    }
}

/// The condition of all, if there is one.
fn carry_all(page: Page, text: &mut Text, all: &[Done]) -> Result<Condition, AllocError>
    requires { IsIn page text.old }
{
    let mut page = page;
    for done in all {
        if let Err(unwritten) = carry_out(&mut page, text, *done) {
            return unwritten.told();
        }
    }
    Ok(Condition::Fine)
}

/// What is done, how many characters the record has already, the limit, and what is written or the condition.
type Row = (&'static [Done], u32, u32, Result<&'static [u8], Condition>);

static ROWS: [Row; 12] = [
    (&[], 0, 0, Ok(b"")),
    (&[Put(b"ab"), End, Put(b"c")], 0, 2, Ok(b"ab\nc")),
    (&[Put(b"abc")], 0, 2, Err(Condition::Error(15))),
    (&[Put(b"abc")], 2, 5, Ok(b"abc")),
    (&[Put(b"abc")], 3, 5, Err(Condition::Error(15))),
    (&[Put(b"a"), End, Put(b"abc")], 2, 3, Ok(b"a\nabc")),
    (
        &[Put(b"abcd"), Go(Move::Back(3)), Put(b"X")],
        0,
        4,
        Ok(b"aXcd"),
    ),
    (
        &[Put(b"ab"), Go(Move::To(5)), Put(b"c")],
        0,
        5,
        Ok(b"ab  c"),
    ),
    (
        &[Put(b"ab"), Go(Move::To(6)), Put(b"c")],
        0,
        5,
        Err(Condition::Error(15)),
    ),
    (&[Go(Move::Ahead(9)), Put(b""), End], 0, 5, Ok(b"\n")),
    (&[Put(b"ab"), Go(Move::To(2)), Put(b"cd")], 0, 3, Ok(b"acd")),
    (
        &[Put(b"ab"), Go(Move::To(2)), Put(b"cd")],
        0,
        2,
        Err(Condition::Error(15)),
    ),
];

/// Whether a row holds.
fn writes(alloc: Global, row: &Row) -> Result<bool, AllocError> {
    let (all, begun, limit, want) = *row;
    let mut text = Text::from_bytes(alloc, b"=")?;
    let page = Page::new(&text, limit, begun);
    let condition = carry_all(page, &mut text, all)?;
    Ok(match (want, text.bytes()) {
        (Ok(written), [b'=', added @ ..]) => condition == Condition::Fine && added == written,
        (Err(met), _) => condition == met,
        (Ok(_), _) => false,
    })
}

#[test]
fn pages(rt: HostRuntime) -> Result<(), Fail> {
    for (number, row) in ROWS.iter().enumerate() {
        assert!(rt; writes(rt.alloc(), row)?, "row {number}");
    }
    Ok(())
}

#[test]
fn pages_take_in(rt: HostRuntime) -> Result<(), Fail> {
    let mut text = Text::from_bytes(rt.alloc(), b"=")?;
    let mut page = Page::new(&text, 3, 0);
    text.push_all(b"abc")?;
    assert!(rt; page.take_in(&text).is_ok() && page.is_at_end(&text) && page.width(&text) == 3);
    text.push_all(b"d")?;
    assert!(rt;
        matches!(
            page.take_in(&text),
            Err(Unwritten::Met(Condition::Error(15)))
        )
    );
    Ok(())
}
