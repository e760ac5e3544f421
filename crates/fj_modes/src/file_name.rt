// Names of files.
ghost use Rattle.std.specs.Prelude.{◌≡◌, ◌||◌, ◌==◌, true, IfOk};
ghost use Rattle.std.specs.Char.{is_ascii_alphanumeric};
ghost use Rattle.std.specs.List.{list_all};
ghost use Rattle.fj_modes.specs.FileName.{is_file_byte, is_disk_name, is_file_name, scratch_name, default_name};

use std::alloc::{AllocError, Global};
use std::marker::Model;

/// The most characters of a file name.
const MAX_FILE_NAME: usize = 64;

fn are_file_bytes(bytes: &[u8]) -> bool
    ensures { result ≡ list_all is_file_byte bytes.now }
{
    bytes.iter().all(|c| c.is_ascii_alphanumeric() || *c == b'.' || *c == b'_' || *c == b'-')
}

/// Whether bytes are a name that FILE= of a deck may spell (ISO/IEC 1539-1:2004, 9.4.5.8, leaves names to the processor).
#[tactic(auto, unfolding(crate::specs::FileName::is_file_name, crate::specs::FileName::is_disk_name))]
pub fn is_file_name(bytes: &[u8]) -> bool
    ensures { result ≡ is_file_name bytes.now }
{
    if bytes.len() > MAX_FILE_NAME {
        return false;
    }
    if bytes.is_empty() {
        return false;
    }
    if !are_file_bytes(bytes) {
        return false;
    }
    if bytes.starts_with(b".") {
        return false;
    }
    !bytes.starts_with(b"SCRATCH.")
}

/// A name of a file of the disk, which is ASCII: one that a deck may spell, or a scratch file's. Contracts see its bytes.
#[derive(Debug, Drop)]
pub struct FileName {
    text: String,
}

impl Model for FileName {
    ghost use Rattle.std.specs.Prelude.{◌≡◌, true, List, ℕ, string_bytes};
    ghost use Rattle.fj_modes.specs.FileName.{is_disk_name};

    ghost Value = { List ℕ };

    ghost view = { λ name. string_bytes name.text };

    ghost invariant = { λ name. is_disk_name (string_bytes name.text) ≡ true };
}

impl FileName {
    /// A name that a deck spells.
    pub fn new(alloc: Global, name: &[u8]) -> Result<FileName, AllocError>
        requires { is_file_name name.now ≡ true }
        ensures { IfOk result (λ made. made ≡ name.now) }
    {
        let text = match str::from_utf8(name) {
            Ok(text) => text,
            Err(_) => unreachable!(),
        };
        Ok(FileName {
            text: String::from_str(alloc, text)?,
        })
    }

    /// The name of the scratch file of a unit.
    pub fn scratch(alloc: Global, unit: i64) -> Result<FileName, AllocError>
        ensures { IfOk result (λ made. made ≡ scratch_name unit) }
    {
        Ok(FileName {
            text: format!(in alloc; "SCRATCH.{unit}")?,
        })
    }

    /// The name of the file of a unit where FILE= does not stand.
    pub fn by_default(alloc: Global, unit: u32) -> Result<FileName, AllocError>
        ensures { IfOk result (λ made. made ≡ default_name unit) }
    {
        Ok(FileName {
            text: format!(in alloc; "fort.{unit}")?,
        })
    }

    pub fn try_clone(&self) -> Result<FileName, AllocError>
        ensures { IfOk result (λ copy. copy ≡ self.now) }
    {
        Ok(FileName {
            text: self.text.clone()?,
        })
    }

    pub fn as_str(&self) -> &str
        ensures text { result.now ≡ self.now }
        ensures named { is_disk_name self.now ≡ true }
    {
        self.text.as_str()
    }
}
