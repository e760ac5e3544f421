// What stands between the output of a run and how the deck ended.
ghost use Rattle.std.specs.Prelude.{◌≡◌};
ghost use Rattle.fj_job.specs.Reply.{lines_of, trace_of};

/// The lines in the middle of a report.
#[derive(Clone, Copy)]
pub enum Middle<'a> {
    Nothing,
    /// A line for each transfer that was told.
    Trace,
    /// These lines.
    Given(&'a [u8]),
}

/// The trace, where it is asked for.
pub fn traced<'a>(trace: bool) -> Middle<'a>
    ensures { lines_of result ≡ trace_of trace }
{
    if trace {
        Middle::Trace
    } else {
        Middle::Nothing
    }
}
