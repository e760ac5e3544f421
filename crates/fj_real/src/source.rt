// A reader of std as a source.
ghost use Rattle.std.specs.Prelude.{◌≡◌, ◌<◌, ◌≤◌, [], length, IfOk, OnErr};
ghost use Rattle.std.specs.Io.KnownBytes.{ReadConsumes};
ghost use Rattle.fj_outside.specs.Faults.{Rose};

use crate::why::Why;
use fj_outside::{Failed, Source};
use std::io::Read;

/// A reader as a source. It tells nothing.
#[derive(Drop)]
pub struct RealSource<R> {
    inner: R,
    faults: u64,
    /// Why the last read that failed did.
    why: Option<Why>,
}

impl<R: Read> RealSource<R> {
    ghost use Rattle.fj_real.specs.RealSource.{reader_of, source_count};

    pub fn new(inner: R) -> RealSource<R>
        ensures reader { reader_of result ≡ inner }
        ensures count { source_count result ≡ 0 }
    {
        RealSource {
            inner,
            faults: 0,
            why: None,
        }
    }

    /// Why the last read that failed did, if one did.
    pub fn why(&self) -> Option<Why> {
        self.why
    }
}

impl<R: Read> Source for RealSource<R> {
    ghost use Rattle.fj_real.specs.RealSource.{reader_of, source_count};

    ghost tells = { λ _. ⊥ };

    ghost left = { λ _. [] };

    ghost count = { source_count };

    fn read(&mut self, buf: &mut [u8]) -> Result<usize, Failed>
        requires { 0 < length buf.old }

        // It gives what the reader gives, where the reader says what that is.
        ensures read { ReadConsumes (R.remaining (reader_of self.old)) (R.remaining (reader_of self.new)) result buf.new }

        ensures bound { IfOk result (λ n. n ≤ length buf.old) }
        ensures later { source_count self.old ≤ source_count self.new }
        ensures failed { OnErr result (Rose (source_count self.old) (source_count self.new)) }
    {
        match self.inner.read(buf) {
            Ok(count) => Ok(count),
            Err(error) => {
                self.faults = self.faults.saturating_add(1);
                self.why = Some(Why::from(error));
                Err(Failed)
            }
        }
    }

    fn faults(&self) -> u64 {
        self.faults
    }
}
