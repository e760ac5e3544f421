// A source that keeps what it gave.
ghost use Rattle.std.specs.Prelude.{◌≡◌};
ghost use Rattle.fj_real.specs.Kept.{source_in};

use fj_outside::{Failed, Source};
use std::alloc::Global;

/// A source that keeps what it gave, as long as there is memory for it. To read from it is to read from the source in it.
#[derive(Drop)]
pub struct Kept<S> {
    inner: S,
    /// What it gave. None once memory was refused.
    text: Option<Vec<u8>>,
}

impl<S> Kept<S> {
    ghost use Rattle.fj_real.specs.Kept.{source_in};

    pub fn new(alloc: Global, inner: S) -> Kept<S>
        ensures { source_in result ≡ inner }
    {
        Kept {
            inner,
            text: Some(Vec::new(alloc)),
        }
    }

    /// The source in it, borrowed.
    pub fn get_ref(&self) -> &S
        ensures { result.now ≡ source_in self.now }
    {
        &self.inner
    }

    /// What it gave, if there was memory to keep it.
    pub fn text(&self) -> Option<&[u8]> {
        match &self.text {
            Some(text) => Some(text),
            None => None,
        }
    }

    /// Keeps a piece too, or nothing from here on.
    fn keep(&mut self, piece: &[u8])
        ensures { source_in self.new ≡ source_in self.old }
    {
        let kept = match &mut self.text {
            Some(text) => text.extend_from_slice(piece).is_ok(),
            None => false,
        };
        if !kept {
            self.text = None;
        }
    }
}

impl<S: Source> Source for Kept<S> {
    ghost tells = { λ kept. S.tells (source_in kept) };

    ghost left = { λ kept. S.left (source_in kept) };

    ghost count = { λ kept. S.count (source_in kept) };

    fn read(&mut self, buf: &mut [u8]) -> Result<usize, Failed> {
        match self.inner.read(buf) {
            Ok(count) => {
                self.keep(&buf[..count]);
                Ok(count)
            }
            Err(failed) => Err(failed),
        }
    }

    fn faults(&self) -> u64 {
        self.inner.faults()
    }
}
