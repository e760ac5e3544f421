// The summary of a deck that was made and carried out.
ghost use Rattle.std.specs.Prelude.{◌≡◌, ◌++◌, OnOk, OnErr};
ghost use Rattle.fj_report.specs.Lines.{summary_text};

use crate::pieces::push_pieces;
use fj_value::Text;
use itoa::Buffer;
use std::alloc::AllocError;

/// What the deck of a seed and a count came to.
#[derive(Clone, Copy, PartialEq, Eq)]
pub struct Summary {
    pub seed: u32,
    pub count: u32,
    /// The statements that were carried out.
    pub statements: u64,
    /// The transfers that were told.
    pub tells: u64,
    /// Those of them that were told with a condition.
    pub conditions: u64,
    /// The bytes of its files together.
    pub bytes: u64,
    /// The sum of these bytes as numbers.
    pub sum: u64,
}

/// The line of a summary. Want of memory leaves the text as it was.
pub fn summary_line(summary: &Summary, out: &mut Text) -> Result<(), AllocError>
    ensures ok { OnOk result (out.new ≡ out.old ++ summary_text summary.now) }
    ensures err { OnErr result (out.new ≡ out.old) }
{
    let mut seed = Buffer::new();
    let mut count = Buffer::new();
    let mut statements = Buffer::new();
    let mut tells = Buffer::new();
    let mut conditions = Buffer::new();
    let mut bytes = Buffer::new();
    let mut sum = Buffer::new();
    push_pieces(
        out,
        &[
            b"= gen seed ",
            seed.format(summary.seed).as_bytes(),
            b" count ",
            count.format(summary.count).as_bytes(),
            b": ",
            statements.format(summary.statements).as_bytes(),
            b" statements, ",
            tells.format(summary.tells).as_bytes(),
            b" tells, ",
            conditions.format(summary.conditions).as_bytes(),
            b" conditions, ",
            bytes.format(summary.bytes).as_bytes(),
            b" bytes, sum ",
            sum.format(summary.sum).as_bytes(),
            b"\n",
        ],
    )
}
