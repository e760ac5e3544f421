// A file of the operating system.
ghost use Rattle.std.specs.Prelude.{◌≡◌, ◌⊎◌, ◌≤◌, ◌-◌, ◌+◌, ◌<◌, ◌^◌, [], length, min, max, IfOk, OnOk, OnErr, false};
ghost use Rattle.std.proofs.Common.{rules};
ghost use Rattle.fj_outside.specs.Faults.{Rose};

use crate::limit::within;
use crate::why::Why;
use fj_outside::{Failed, FileStore, Stop};
use std::fs::File;
use std::os::unix::fs::FileExt;

/// A file of the operating system. Its length is what it was when it was opened, and what was written and cut since. It
/// tells nothing.
#[derive(Drop)]
pub struct RealFile {
    file: File,
    size: u64,
    /// The first place that it may not have.
    limit: u64,
    faults: u64,
    /// Why the last call that failed did.
    why: Option<Why>,
}

impl RealFile {
    ghost use Rattle.fj_real.specs.RealFile.{file_size, file_count};

    /// An open file of that length, which may not pass a limit.
    pub(crate) fn new(file: File, size: u64, limit: u64) -> RealFile
        ensures size { file_size result ≡ size }
        ensures count { file_count result ≡ 0 }
    {
        RealFile {
            file,
            size,
            limit,
            faults: 0,
            why: None,
        }
    }

    /// Why the last call that failed did, if one did.
    pub fn why(&self) -> Option<Why> {
        self.why
    }

    fn fail(&mut self, why: Why)
        ensures later { file_count self.old ≤ file_count self.new }
        ensures rose { Rose (file_count self.old) (file_count self.new) }
        ensures size { file_size self.new ≡ file_size self.old }
    {
        self.faults = self.faults.saturating_add(1);
        self.why = Some(why);
    }
}

/// Fills the whole buffer. A read that ends earlier fails.
fn read_whole(file: &File, at: u64, buf: &mut [u8]) -> Result<(), Why>
    requires { at + length buf.old < 2 ^ 64 }
{
    let mut got = 0;
    'filling: for _ in 0..buf.len() {
        if got == buf.len() {
            break;
        }
        match file.read_at(&mut buf[got..], at + got as u64) {
            Ok(0) => return Err(Why::Shorter),
            Err(error) => return Err(Why::from(error)),
            Ok(count) => got += count,
        }
    }
    if got < buf.len() {
        return Err(Why::Shorter);
    }
    Ok(())
}

/// A piece that was written, or a front of it and why no more was.
#[derive(Clone, Copy)]
struct Put {
    count: usize,
    why: Option<Why>,
}

/// Writes a piece, or the front before a write that failed.
fn write_whole(file: &File, at: u64, piece: &[u8]) -> Put
    requires { at + length piece.now < 2 ^ 64 }
    ensures { result.count ≤ length piece.now }
{
    let mut count = 0;
    'draining: for _ in 0..piece.len() {
        if count == piece.len() {
            break;
        }
        match file.write_at(&piece[count..], at + count as u64) {
            Ok(0) => {
                return Put {
                    count,
                    why: Some(Why::NothingTaken),
                };
            }
            Err(error) => {
                return Put {
                    count,
                    why: Some(Why::from(error)),
                };
            }
            Ok(more) => count += more,
        }
    }
    Put { count, why: None }
}

impl FileStore for RealFile {
    ghost tells = { λ _. ⊥ };

    ghost told = { λ _. false };

    ghost decided = { Prim.search rules };

    ghost bytes = { λ _. [] };

    ghost size = { λ file. file.size };

    ghost count = { λ file. file.faults };

    fn len(&self) -> u64 {
        self.size
    }

    fn read_at(&mut self, at: u64, buf: &mut [u8]) -> Result<usize, Failed> {
        let rest = self.size.saturating_sub(at);
        let count = (buf.len() as u64).min(rest) as usize;
        if count == 0 {
            return Ok(count);
        }
        match read_whole(&self.file, at, &mut buf[..count]) {
            Ok(()) => Ok(count),
            Err(why) => {
                self.fail(why);
                Err(Failed)
            }
        }
    }

    /// A piece that would pass the limit on a file is written up to it, and fails; no signal comes.
    fn write_at(&mut self, at: u64, piece: &[u8]) -> Result<(), Stop> {
        if at.checked_add(piece.len() as u64).is_none() {
            self.fail(Why::TooFar);
            return Err(Stop::Failed);
        }
        let most = within(self.limit, at, piece.len());
        let put = write_whole(&self.file, at, &piece[..most]);
        self.size = self.size.max(at + put.count as u64);
        if put.count == piece.len() {
            return Ok(());
        }
        self.fail(put.why.unwrap_or(Why::Limit));
        Err(Stop::Failed)
    }

    fn cut(&mut self, len: u64) -> Result<(), Failed> {
        match self.file.set_len(len) {
            Ok(()) => {
                self.size = len;
                Ok(())
            }
            Err(error) => {
                self.fail(Why::from(error));
                Err(Failed)
            }
        }
    }

    fn faults(&self) -> u64 {
        self.faults
    }
}
