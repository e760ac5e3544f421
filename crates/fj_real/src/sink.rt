// A writer of std as a sink.
ghost use Rattle.std.specs.Prelude.{◌≡◌, ◌<◌, ◌≤◌, [], length, take, IfOk};
ghost use Rattle.std.specs.Io.KnownBytes.{Appends};
ghost use Rattle.fj_outside.specs.Faults.{Rose};

use crate::why::Why;
use fj_outside::{Sink, Stop};
use std::io::Write;

/// A writer as a sink. It tells nothing.
#[derive(Drop)]
pub struct RealSink<W> {
    inner: W,
    faults: u64,
    /// Why the last write that failed did.
    why: Option<Why>,
}

impl<W: Write> RealSink<W> {
    ghost use Rattle.fj_real.specs.RealSink.{writer_of, sink_count};

    pub fn new(inner: W) -> RealSink<W>
        ensures writer { writer_of result ≡ inner }
        ensures count { sink_count result ≡ 0 }
    {
        RealSink {
            inner,
            faults: 0,
            why: None,
        }
    }

    /// Why the last write that failed did, if one did.
    pub fn why(&self) -> Option<Why> {
        self.why
    }
}

impl<W: Write> Sink for RealSink<W> {
    ghost use Rattle.fj_real.specs.RealSink.{writer_of, sink_count};

    ghost tells = { λ _. ⊥ };

    ghost taken = { λ _. [] };

    ghost count = { sink_count };

    /// What it takes it also flushes, so that nothing is lost where the program ends.
    fn write(&mut self, piece: &[u8]) -> Result<usize, Stop>
        requires { 0 < length piece.now }

        // The writer got what is said to be taken, where it says what it holds.
        ensures wrote { IfOk result (λ n.
            Appends (W.contents (writer_of self.old)) (W.contents (writer_of self.new)) (take n piece.now)) }

        ensures bound { IfOk result (λ n. (0 < n) × (n ≤ length piece.now)) }
        ensures later { sink_count self.old ≤ sink_count self.new }
        ensures failed { result ≡ Err Stop.Failed → Rose (sink_count self.old) (sink_count self.new) }
    {
        let why = match self.inner.write(piece) {
            Ok(count) if count > 0 => match self.inner.flush() {
                Ok(()) => return Ok(count),
                Err(error) => Why::from(error),
            },
            Ok(_) => Why::NothingTaken,
            Err(error) => Why::from(error),
        };
        self.faults = self.faults.saturating_add(1);
        self.why = Some(why);
        Err(Stop::Failed)
    }

    fn faults(&self) -> u64 {
        self.faults
    }
}
