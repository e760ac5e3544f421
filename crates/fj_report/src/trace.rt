// The trace: a line for each transfer that was told.
ghost use Rattle.std.specs.Prelude.{◌≡◌, ◌++◌, OnOk, OnErr};
ghost use Rattle.fj_report.specs.Lines.{KeepsFront, trace_lines};

use crate::line::trace_line;
use fj_value::{Tag, Text};
use std::alloc::AllocError;

/// A transfer that was told: the line of the statement that tells it, its unit, its identifier and its condition.
#[derive(Clone, Copy, PartialEq, Eq)]
pub struct Tell {
    pub stmt: u32,
    pub unit: i64,
    pub tag: Tag,
    pub code: i32,
}

fn append_trace(tells: &[Tell], out: &mut Text) -> Result<(), AllocError>
    ensures ok { OnOk result (out.new ≡ out.old ++ trace_lines tells.now) }
    ensures err { OnErr result (KeepsFront out.old out.new) }
{
    for tell in tells {
        trace_line(tell.stmt, tell.unit, tell.tag, tell.code, out)?;
    }
    Ok(())
}

/// The lines of transfers in the order in which they were told. Want of memory leaves the text as it was.
pub fn trace_lines(tells: &[Tell], out: &mut Text) -> Result<(), AllocError>
    ensures ok { OnOk result (out.new ≡ out.old ++ trace_lines tells.now) }
    ensures err { OnErr result (out.new ≡ out.old) }
{
    let start = out.len();
    match append_trace(tells, out) {
        Ok(()) => Ok(()),
        Err(error) => {
            out.truncate(start);
            Err(error)
        }
    }
}
