// The limit that the process has on the size of a file, and the place that standard output has come to, as Linux tells them in /proc/self.
ghost use Rattle.std.specs.Prelude.{◌≤◌};

use std::fs::File;
use std::io::Read;
use std::rt::Files;
use std::str;

/// More bytes than a file of that kind has in front of what is looked for.
const ENOUGH: usize = 2048;

/// The number behind the first line that begins so.
fn number_behind(text: &str, head: &str) -> Option<u64> {
    for line in text.lines() {
        if let Some(rest) = line.strip_prefix(head) {
            return rest.split_whitespace().next()?.parse().ok();
        }
    }
    None
}

/// The number in a file of that form, if there is one. It takes no memory.
fn number_of<R: Files<File = File>>(rt: &R, file: &str, head: &str) -> Option<u64> {
    let mut bytes = [0; ENOUGH];
    let count = File::open(rt, file).ok()?.read(&mut bytes).ok()?;
    number_behind(str::from_utf8(&bytes[..count]).ok()?, head)
}

/// The first place that no file may have: a write there ends the process by a signal, unless the signal is ignored
/// (setrlimit(2)). The greatest number where there is no limit, or where the system does not say.
pub(crate) fn file_limit<R: Files<File = File>>(rt: &R) -> u64 {
    number_of(rt, "/proc/self/limits", "Max file size").unwrap_or(u64::MAX)
}

/// The place that standard output has come to in the file that it leads into; 0 where the system does not say.
pub(crate) fn output_place<R: Files<File = File>>(rt: &R) -> u64 {
    number_of(rt, "/proc/self/fdinfo/1", "pos:").unwrap_or(0)
}

/// How many of so many bytes may be put at a place under a limit.
pub(crate) fn within(limit: u64, at: u64, count: usize) -> usize
    ensures { result ≤ count }
{
    let room = limit.saturating_sub(at);
    if (count as u64) <= room {
        return count;
    }
    room as usize
}
