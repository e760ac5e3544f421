// Lines of the report. Want of memory leaves the text as it was.
ghost use Rattle.std.specs.Prelude.{◌≡◌, ◌++◌, OnOk, OnErr};
ghost use Rattle.fj_report.specs.Lines.{reason_words, reason_number, rule_text, usage_text, status_text, check_text, trace_text, look_text};

use crate::pieces::push_pieces;
use crate::status::Status;
use fj_statement::Reason;
use fj_value::{Rule, Tag, Text, letter_of};
use itoa::Buffer;
use std::alloc::AllocError;

/// The line for words that are none of the forms.
#[tactic(auto, unfolding(crate::specs::Lines::usage_text))]
pub fn usage() -> &'static [u8]
    ensures { result.now ≡ usage_text }
{
    b"usage: fjob run [--workers N] [--trace] | alone [--trace] | check | gen --seed N --count M [--text]\n"
}

pub fn usage_line(out: &mut Text) -> Result<(), AllocError>
    ensures ok { OnOk result (out.new ≡ out.old ++ usage_text) }
    ensures err { OnErr result (out.new ≡ out.old) }
{
    out.push_all(usage())
}

fn rule_text(rule: Rule) -> &'static [u8]
    ensures { result.now ≡ rule_text rule }
{
    match rule {
        Rule::P1 => b"P1",
        Rule::P2 => b"P2",
        Rule::P3 => b"P3",
        Rule::P4 => b"P4",
        Rule::P5 => b"P5",
    }
}

fn reason_words(reason: Reason) -> &'static [u8]
    ensures { result.now ≡ reason_words reason }
{
    match reason {
        Reason::TextTooLong => b"text too long",
        Reason::LineTooLong => b"line too long",
        Reason::Syntax => b"syntax",
        Reason::Format { .. } => b"format at ",
        Reason::Meaning => b"meaning",
        Reason::TooMany => b"too many",
        Reason::NoEnd => b"no end",
    }
}

fn reason_number(buffer: &mut Buffer, reason: Reason) -> &[u8]
    ensures { result.now ≡ reason_number reason }
{
    match reason {
        Reason::Format { at } => buffer.format(at).as_bytes(),
        _ => b"",
    }
}

#[tactic(auto, unfolding(crate::specs::Lines::status_text))]
fn error_stop_line(stmt: u32, code: i32, out: &mut Text) -> Result<(), AllocError>
    ensures ok { OnOk result (out.new ≡ out.old ++ status_text (Status.ErrorStop stmt code)) }
    ensures err { OnErr result (out.new ≡ out.old) }
{
    let mut line = Buffer::new();
    let mut condition = Buffer::new();
    push_pieces(
        out,
        &[
            b"= error stop at ",
            line.format(stmt).as_bytes(),
            b" with ",
            condition.format(code).as_bytes(),
            b"\n",
        ],
    )
}

#[tactic(auto, unfolding(crate::specs::Lines::status_text))]
fn prohibited_line(stmt: u32, rule: Rule, out: &mut Text) -> Result<(), AllocError>
    ensures ok { OnOk result (out.new ≡ out.old ++ status_text (Status.Prohibited stmt rule)) }
    ensures err { OnErr result (out.new ≡ out.old) }
{
    let mut line = Buffer::new();
    push_pieces(
        out,
        &[
            b"= prohibited at ",
            line.format(stmt).as_bytes(),
            b" by ",
            rule_text(rule),
            b"\n",
        ],
    )
}

#[tactic(auto, unfolding(crate::specs::Lines::status_text))]
fn refused_line(line: u32, reason: Reason, out: &mut Text) -> Result<(), AllocError>
    ensures ok { OnOk result (out.new ≡ out.old ++ status_text (Status.DeckRefused line reason)) }
    ensures err { OnErr result (out.new ≡ out.old) }
{
    let mut number = Buffer::new();
    let mut at = Buffer::new();
    push_pieces(
        out,
        &[
            b"= refused at ",
            number.format(line).as_bytes(),
            b": ",
            reason_words(reason),
            reason_number(&mut at, reason),
            b"\n",
        ],
    )
}

#[tactic(auto, unfolding(crate::specs::Lines::status_text))]
fn disk_fault_line(stmt: u32, out: &mut Text) -> Result<(), AllocError>
    ensures ok { OnOk result (out.new ≡ out.old ++ status_text (Status.DiskFault stmt)) }
    ensures err { OnErr result (out.new ≡ out.old) }
{
    let mut line = Buffer::new();
    push_pieces(
        out,
        &[b"= disk fault at ", line.format(stmt).as_bytes(), b"\n"],
    )
}

/// The line of an answer. A fault of the source or the sink and want of memory have none.
#[tactic(auto, unfolding(crate::specs::Lines::status_text))]
pub fn status_line(status: &Status, out: &mut Text) -> Result<(), AllocError>
    ensures ok { OnOk result (out.new ≡ out.old ++ status_text status.now) }
    ensures err { OnErr result (out.new ≡ out.old) }
{
    match *status {
        Status::Ended => out.push_all(b"= ended\n"),
        Status::ErrorStop { stmt, code } => error_stop_line(stmt, code, out),
        Status::Prohibited { stmt, rule } => prohibited_line(stmt, rule, out),
        Status::DeckRefused { line, reason } => refused_line(line, reason, out),
        Status::Usage => usage_line(out),
        Status::DiskFault { stmt } => disk_fault_line(stmt, out),
        Status::ReadFault | Status::WriteFault | Status::Memory => Ok(()),
    }
}

/// The line of a deck of so many statements that was read and is not carried out.
#[tactic(auto, unfolding(crate::specs::Lines::check_text))]
pub fn check_line(count: usize, out: &mut Text) -> Result<(), AllocError>
    ensures ok { OnOk result (out.new ≡ out.old ++ check_text count) }
    ensures err { OnErr result (out.new ≡ out.old) }
{
    let mut number = Buffer::new();
    push_pieces(
        out,
        &[
            b"= deck of ",
            number.format(count).as_bytes(),
            b" statements\n",
        ],
    )
}

/// The line of a transfer with this condition that the statement of a line tells.
#[tactic(auto, unfolding(crate::specs::Lines::trace_text))]
pub fn trace_line(
    stmt: u32,
    unit: i64,
    tag: Tag,
    code: i32,
    out: &mut Text,
) -> Result<(), AllocError>
    ensures ok { OnOk result (out.new ≡ out.old ++ trace_text stmt unit tag.0 code) }
    ensures err { OnErr result (out.new ≡ out.old) }
{
    let mut line = Buffer::new();
    let mut number = Buffer::new();
    let mut identifier = Buffer::new();
    let mut condition = Buffer::new();
    push_pieces(
        out,
        &[
            b"~ ",
            line.format(stmt).as_bytes(),
            b" ",
            number.format(unit).as_bytes(),
            b" ",
            identifier.format(tag.0).as_bytes(),
            b" ",
            condition.format(code).as_bytes(),
            b"\n",
        ],
    )
}

/// The line of a look at the pending transfers of a unit: whether some are pending, and how many were done then.
#[tactic(auto, unfolding(crate::specs::Lines::look_text))]
pub fn look_line(
    stmt: u32,
    unit: i64,
    pending: bool,
    done: u64,
    out: &mut Text,
) -> Result<(), AllocError>
    ensures ok { OnOk result (out.new ≡ out.old ++ look_text stmt unit pending done) }
    ensures err { OnErr result (out.new ≡ out.old) }
{
    let mut line = Buffer::new();
    let mut number = Buffer::new();
    let mut count = Buffer::new();
    push_pieces(
        out,
        &[
            b"? ",
            line.format(stmt).as_bytes(),
            b" ",
            number.format(unit).as_bytes(),
            b" ",
            letter_of(pending),
            b" ",
            count.format(done).as_bytes(),
            b"\n",
        ],
    )
}
