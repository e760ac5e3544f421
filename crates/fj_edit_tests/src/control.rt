// Runs of formats, with steps written out by hand.
ghost use Rattle.std.specs.Prelude.{◌<◌, ◌≤◌, ◌^◌, length};

use fj_control::{Cursor, Step};
use fj_format::{ModeStep, parse};
use fj_value::Edit;
use std::alloc::{AllocError, Global};
use std::test::Fail;

fn show_edit(out: &mut String, edit: Edit) -> Result<(), AllocError> {
    match edit {
        Edit::Int { w, m: None } => write!(out, "I{w}"),
        Edit::Int { w, m: Some(m) } => write!(out, "I{w}.{m}"),
        Edit::Bits { base, w, m: None } => write!(out, "{base}#{w}"),
        Edit::Bits {
            base,
            w,
            m: Some(m),
        } => write!(out, "{base}#{w}.{m}"),
        Edit::Log { w } => write!(out, "L{w}"),
        Edit::Chars { w: None } => out.push_str("A"),
        Edit::Chars { w: Some(w) } => write!(out, "A{w}"),
        Edit::General { w: 0, .. } => out.push_str("G0"),
        Edit::General { w, d } => write!(out, "G{w}.{d}"),
    }
}

fn name_of(mode: ModeStep) -> &'static str {
    match mode {
        ModeStep::Plus => "SP",
        ModeStep::Suppress => "SS",
        ModeStep::Usual => "S",
        ModeStep::BlankNull => "BN",
        ModeStep::BlankZero => "BZ",
        ModeStep::Comma => "DC",
        ModeStep::Point => "DP",
    }
}

/// A step as it is written in the tables: a descriptor, a string between apostrophes, `.` for the end and `!` for the
/// end for want of a data descriptor.
fn show(out: &mut String, step: Step) -> Result<(), AllocError> {
    out.push_str(" ")?;
    match step {
        Step::Edit(edit) => show_edit(out, edit),
        Step::Slash => out.push_str("/"),
        Step::Str(text) => {
            out.push_str("'")?;
            for byte in text {
                out.push(char::from(*byte))?;
            }
            out.push_str("'")
        }
        Step::Tab(n) => write!(out, "T{n}"),
        Step::Left(n) => write!(out, "TL{n}"),
        Step::Right(n) => write!(out, "TR{n}"),
        Step::Mode(mode) => out.push_str(name_of(mode)),
        Step::Done => out.push_str("."),
        Step::NoData => out.push_str("!"),
    }
}

/// The steps of a format with so many items, and one call more.
fn steps_of(alloc: Global, format: &[u8], items: u32) -> Result<String, Fail>
    requires { length format.now < 2 ^ 32 }
{
    let format = parse(alloc, format)?;
    let mut cursor = Cursor::new(alloc, &format)?;
    let mut left = items;
    let mut out = String::new(alloc);
    for _ in 0..500u32 {
        let step = cursor.next(left > 0);
        show(&mut out, step)?;
        match step {
            Step::Edit(_) => left = left.saturating_sub(1),
            Step::Done | Step::NoData => break,
            _ => {}
        }
    }
    show(&mut out, cursor.next(true))?;
    Ok(out)
}

/// `((..(I1)..))` with so many parentheses, and a repeat count before each inner one.
fn nested(alloc: Global, depth: u32, count: &str) -> Result<String, AllocError> {
    let mut text = String::new(alloc);
    for i in 0..depth {
        if i > 0 {
            text.push_str(count)?;
        }
        text.push_str("(")?;
    }
    text.push_str("I1")?;
    for _ in 0..depth {
        text.push_str(")")?;
    }
    Ok(text)
}

/// A format, the number of items, and the steps.
static RUNS: [(&str, u32, &str); 38] = [
    (
        "(I3,2(1X,I2))",
        6,
        " I3 TR1 I2 TR1 I2 / TR1 I2 TR1 I2 / TR1 I2 TR1 . .",
    ),
    ("(2(I1,/),:,A)", 0, " . ."),
    ("(2(I1,/),:,A)", 1, " I1 / . ."),
    ("(2(I1,/),:,A)", 2, " I1 / I1 / . ."),
    ("(2(I1,/),:,A)", 3, " I1 / I1 / A . ."),
    ("(2(I1,/),:,A)", 4, " I1 / I1 / A / I1 / . ."),
    ("(I1)", 3, " I1 / I1 / I1 . ."),
    ("()", 0, " . ."),
    ("()", 1, " ! !"),
    ("('x')", 0, " 'x' . ."),
    ("('x')", 1, " 'x' ! !"),
    ("(I1,'x')", 1, " I1 'x' . ."),
    ("(I1,'x')", 2, " I1 'x' / I1 'x' . ."),
    ("(I1,(I2),I3)", 5, " I1 I2 I3 / I2 I3 . ."),
    (
        "((I1),2(I2,'a'),'b')",
        4,
        " I1 I2 'a' I2 'a' 'b' / I2 'a' . .",
    ),
    ("(I1,(1X))", 1, " I1 TR1 . ."),
    ("(I1,(1X))", 2, " I1 TR1 ! !"),
    (
        "('a',2(I1,'c'),2('b'))",
        3,
        " 'a' I1 'c' I1 'c' 'b' 'b' ! !",
    ),
    (
        "(2(I1,2('a',I2)),I3)",
        8,
        " I1 'a' I2 'a' I2 I1 'a' I2 'a' I2 I3 / I1 'a' . .",
    ),
    ("(3(2(I1)))", 7, " I1 I1 I1 I1 I1 I1 / I1 . ."),
    ("(//I1//)", 2, " / / I1 / / / / / I1 / / . ."),
    ("(3/,I1)", 1, " / / / I1 . ."),
    ("(*(I0,:,','))", 3, " I0 ',' I0 ',' I0 . ."),
    (
        "('x',*('a',G0,'b'))",
        2,
        " 'x' 'a' G0 'b' 'a' G0 'b' 'a' . .",
    ),
    ("(I1,*('a',G0))", 0, " . ."),
    ("(2(I1),*(I2,2(A)))", 6, " I1 I1 I2 A A I2 . ."),
    ("(*(I1,/))", 2, " I1 / I1 / . ."),
    ("(':',:,'x',I1)", 0, " ':' . ."),
    ("(':',:,'x',I1)", 1, " ':' 'x' I1 . ."),
    ("(:)", 0, " . ."),
    ("(:)", 1, " ! !"),
    ("(I1,:,',')", 2, " I1 ',' / I1 . ."),
    ("(I1/I2)", 3, " I1 / I2 / I1 / . ."),
    ("(2I2,3A)", 4, " I2 I2 A A . ."),
    ("(2(2(2(I1,:),'c'),:),'z')", 3, " I1 I1 'c' I1 . ."),
    ("(T4,A,T1,A)", 2, " T4 A T1 A . ."),
    ("(TL3,TR2,5X,X,I1)", 1, " TL3 TR2 TR5 TR1 I1 . ."),
    (
        "(SP,I5.3,SS,B8,S,O3,BN,Z4.2,BZ,L1,DC,G8.2,DP,A7)",
        7,
        " SP I5.3 SS 2#8 S 8#3 BN 16#4.2 BZ L1 DC G8.2 DP A7 . .",
    ),
];

/// Whether a format has these steps.
fn has_steps(alloc: Global, format: &str, items: u32, want: &str) -> Result<bool, Fail> {
    if format.len() >= 1000 {
        return Ok(false);
    }
    let got = steps_of(alloc, format.as_bytes(), items)?;
    Ok(got.as_str() == want)
}

#[test]
fn steps(rt: HostRuntime) -> Result<(), Fail> {
    for (format, items, want) in RUNS.iter() {
        assert!(rt;
            has_steps(rt.alloc(), format, *items, want)?,
            "{format} with {items}"
        );
    }
    Ok(())
}

#[test]
fn nested_formats(rt: HostRuntime) -> Result<(), Fail> {
    for depth in 1..33 {
        let format = nested(rt.alloc(), depth, "")?;
        assert!(rt;
            has_steps(rt.alloc(), format.as_str(), 2, " I1 / I1 . .")?,
            "depth {depth}"
        );
    }
    Ok(())
}

/// How many characters the steps of the first pass take.
fn length_of_a_pass(alloc: Global, format: &str, items: u32) -> Result<usize, Fail> {
    if format.len() >= 1000 {
        return Ok(0);
    }
    let got = steps_of(alloc, format.as_bytes(), items)?;
    Ok(got.as_str().split_once("/").map_or(0, |p| p.0.len()))
}

#[test]
fn nested_counts(rt: HostRuntime) -> Result<(), Fail> {
    for (depth, want) in [(1, 1), (2, 2), (3, 4), (5, 16), (8, 128)] {
        let twice = nested(rt.alloc(), depth, "2")?;
        let first = length_of_a_pass(rt.alloc(), twice.as_str(), 256)?;
        assert!(rt; first == 3 * want + 1, "depth {depth}");
    }
    Ok(())
}

/// A data descriptor that comes several times.
#[test]
fn runs(rt: HostRuntime) -> Result<(), Fail> {
    let format = parse(rt.alloc(), b"(3I8,A)")?;
    let mut cursor = Cursor::new(rt.alloc(), &format)?;
    assert!(rt; cursor.run(0).is_none());
    assert!(rt; matches!(cursor.run(1), Some((Edit::Int { w: 8, m: None }, 1))));
    assert!(rt; matches!(cursor.next(true), Step::Edit(Edit::Int { w: 8, m: None })));
    assert!(rt; matches!(cursor.run(5), Some((Edit::Int { w: 8, m: None }, 1))));
    assert!(rt; matches!(cursor.run(5), Some((Edit::Chars { w: None }, 1))));
    assert!(rt; cursor.run(5).is_none());
    Ok(())
}
