// CLOSE: the file goes back to the disk (ISO/IEC 1539-1:2004, 9.4.6).
ghost use Rattle.std.specs.Prelude.{is_err, ◌≡◌, ◌≢◌, ◌≤◌, ◌==◌, ◌↔◌, true, false, OnOk, OnErr, if◌then◌else◌};
ghost use Rattle.fj_outside.specs.Faults.{Rose};
ghost use Rattle.fj_outside.specs.Refusals.{CountsFailure};
ghost use Rattle.fj_outside.specs.Holdings.{IsInUse, given, without};
ghost use Rattle.fj_connect.specs.Opening.{closed};
ghost use Rattle.fj_connect.specs.Linked.{connection_of};

use crate::connection::Connection;
use fj_outside::{Disk, Failed, FileStore};

impl<F: FileStore> Connection<F> {
    /// Gives the file back, and removes it where it is not to be kept (ISO/IEC 1539-1:2004, 9.4.6). No condition comes, and it
    /// takes no memory. After `Failed` the file is back and was not removed.
    pub fn close_file<D: Disk<File = F>>(self, disk: &mut D, keep: bool) -> Result<(), Failed>
        requires { D.tells disk.old → IsInUse (D.held disk.old) self.name }
        ensures telling { D.tells disk.old ↔ D.tells disk.new }
        ensures files { D.tells disk.old → OnOk result
            ((D.held disk.new).files ≡ closed (connection_of F.bytes self) keep (D.held disk.old).files) }
        ensures back { D.tells disk.old → let home = given (D.held disk.old) self.name (F.bytes self.file) (F.count self.file == 0) in
            OnOk result (D.held disk.new ≡ (if keep then home else without home self.name)) }
        ensures err { D.tells disk.old → OnErr result
            (D.held disk.new ≡ given (D.held disk.old) self.name (F.bytes self.file) (F.count self.file == 0)) }

        // Told or not.
        ensures kept { OnErr result (keep ≡ false) }
        ensures own { D.tells disk.old → CountsFailure (is_err result) (D.refusals disk.old) (D.refusals disk.new) }
        ensures later { D.count disk.old ≤ D.count disk.new }
        ensures hurt { F.count self.file ≢ 0 → Rose (D.count disk.old) (D.count disk.new) }
        ensures failed { OnErr result (Rose (D.count disk.old) (D.count disk.new)) }
    {
        let Connection {
            modes: _,
            name,
            file,
            spot: _,
            hand: _,
            looked: _,
        } = self;
        disk.give(name.as_str(), file.into_inner());
        if keep {
            return Ok(());
        }
        disk.remove(name.as_str())
    }
}
