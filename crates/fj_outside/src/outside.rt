// The outside as the program sees it: sources, sinks, files and disks.
//
// Each counts its faults. An object may tell what it holds: then `tells` is true of it, and goes on being true. The
// clauses that speak of what it holds begin with that premise; over an object that does not tell they are void.
ghost use Rattle.std.specs.Prelude.{◌≡◌, ◌≢◌, ◌⊎◌, ◌+◌, ◌-◌, ◌<◌, ◌≤◌, ◌==◌, [], ◌++◌, List, ℕ, length, take, drop, min, max, IfOk, OnOk, OnErr, IfSome, IfNone, IsTrue, ◌↔◌, Some, None, is_err, false, Bool};
ghost use Rattle.std.specs.FinMap as map;
ghost use Rattle.fj_outside.specs.Faults.{Rose};
ghost use Rattle.fj_outside.specs.Refusals.{CountsFailure, has_failed};
ghost use Rattle.fj_outside.specs.Bytes.{written, IsPartlyWritten};
ghost use Rattle.fj_outside.specs.Holdings.{Holdings, Exists, IsInUse, IsFree, out_of, given, without};

use crate::errors::{Failed, Stop};
use std::alloc::Global;

/// Where bytes come from.
pub trait Source {
    /// Whether it tells what it has left.
    ghost tells: { Self → Type 0 };

    /// The bytes that are left.
    ghost left: { Self → List ℕ };

    /// Its count of faults.
    ghost count: { Self → ℕ };

    /// Moves the next bytes into the front of a buffer that is not empty, and answers how many. 0 is the end of input.
    /// After `Failed` nothing is said of the buffer and of what is left.
    fn read(&mut self, buf: &mut [u8]) -> Result<usize, Failed>
        requires { 0 < length buf.old }
        ensures bound { IfOk result (λ n. n ≤ length buf.old) }
        ensures telling { tells self.old ↔ tells self.new }
        ensures bytes { tells self.old → IfOk result (λ n. left self.old ≡ take n buf.new ++ left self.new) }
        ensures rest { tells self.old → IfOk result (λ n. drop n buf.new ≡ drop n buf.old) }
        ensures end { tells self.old → IfOk result (λ n. n ≡ 0 → left self.old ≡ []) }
        ensures later { count self.old ≤ count self.new }
        ensures failed { OnErr result (Rose (count self.old) (count self.new)) };

    /// How many faults it had. The count stays at `u64::MAX` once it is there.
    fn faults(&self) -> u64
        ensures { result ≡ count self.now };
}

/// Where bytes go to.
pub trait Sink {
    /// Whether it tells what it took.
    ghost tells: { Self → Type 0 };

    /// The bytes that it took.
    ghost taken: { Self → List ℕ };

    /// Its count of faults.
    ghost count: { Self → ℕ };

    /// Takes 1 byte or more from the front of a piece that is not empty, and answers how many. After an `Err` it took
    /// nothing of the piece.
    fn write(&mut self, piece: &[u8]) -> Result<usize, Stop>
        requires { 0 < length piece.now }
        ensures bound { IfOk result (λ n. (0 < n) × (n ≤ length piece.now)) }
        ensures telling { tells self.old ↔ tells self.new }
        ensures bytes { tells self.old → IfOk result (λ n. taken self.new ≡ taken self.old ++ take n piece.now) }
        ensures err { tells self.old → OnErr result (taken self.new ≡ taken self.old) }
        ensures later { count self.old ≤ count self.new }
        ensures failed { result ≡ Err Stop.Failed → Rose (count self.old) (count self.new) };

    /// How many faults it had. The count stays at `u64::MAX` once it is there.
    fn faults(&self) -> u64
        ensures { result ≡ count self.now };
}

/// A file that is out of its disk, with bytes at places from 0 on.
pub trait FileStore: Drop {
    /// Whether it tells its bytes.
    ghost tells: { Self → Type 0 };

    /// The same as a truth value.
    ghost told: { Self → Bool };

    /// Its bytes.
    ghost bytes: { Self → List ℕ };

    /// Its length, told or not.
    ghost size: { Self → ℕ };

    /// Its count of faults since it came out of the disk.
    ghost count: { Self → ℕ };

    /// Its length in bytes.
    fn len(&self) -> u64
        ensures size { result ≡ size self.now }
        ensures bytes { tells self.now → result ≡ length (bytes self.now) };

    /// Copies the bytes from a place on into the front of a buffer, and answers how many: as many as the buffer holds
    /// or the file has from there on. It never stops before. After `Failed` the file is as before, and nothing is said
    /// of the buffer.
    fn read_at(&mut self, at: u64, buf: &mut [u8]) -> Result<usize, Failed>
        ensures amount { IfOk result (λ n. n ≡ min (length buf.old) (size self.old - at)) }
        ensures size { size self.new ≡ size self.old }
        ensures telling { tells self.old ↔ tells self.new }
        ensures same { tells self.old → bytes self.new ≡ bytes self.old }
        ensures bytes { tells self.old → IfOk result (λ n. buf.new ≡ take n (drop at (bytes self.old)) ++ drop n buf.old) }
        ensures later { count self.old ≤ count self.new }
        ensures failed { OnErr result (Rose (count self.old) (count self.new)) };

    /// Puts a piece at a place that is at most the length, over what is there and beyond the end. After an `Err` a
    /// prefix of the piece, maybe empty, was written, and all other bytes are as before.
    fn write_at(&mut self, at: u64, piece: &[u8]) -> Result<(), Stop>
        requires { at ≤ size self.old }
        ensures size { OnOk result (size self.new ≡ max (size self.old) (at + length piece.now)) }
        ensures no_shorter { size self.old ≤ size self.new }
        ensures no_longer { size self.new ≤ max (size self.old) (at + length piece.now) }
        ensures telling { tells self.old ↔ tells self.new }
        ensures bytes { tells self.old → OnOk result (bytes self.new ≡ written (bytes self.old) at piece.now) }
        ensures err { tells self.old → OnErr result (IsPartlyWritten (bytes self.old) at piece.now (bytes self.new)) }
        ensures later { count self.old ≤ count self.new }
        ensures failed { result ≡ Err Stop.Failed → Rose (count self.old) (count self.new) };

    /// Cuts the file to a length that is at most its own. After `Failed` it is cut or as before.
    fn cut(&mut self, len: u64) -> Result<(), Failed>
        requires { len ≤ size self.old }
        ensures size { OnOk result (size self.new ≡ len) }
        ensures err_size { OnErr result ((size self.new ≡ len) ⊎ (size self.new ≡ size self.old)) }
        ensures telling { tells self.old ↔ tells self.new }
        ensures bytes { tells self.old → OnOk result (bytes self.new ≡ take len (bytes self.old)) }
        ensures err { tells self.old → OnErr result ((bytes self.new ≡ take len (bytes self.old)) ⊎ (bytes self.new ≡ bytes self.old)) }
        ensures later { count self.old ≤ count self.new }
        ensures failed { OnErr result (Rose (count self.old) (count self.new)) };

    /// Has bytes from a place on at hand, where the file keeps a window. After `Failed` the file is as before.
    fn fill(&mut self, _at: u64) -> Result<(), Failed>
        ensures size { size self.new ≡ size self.old }
        ensures telling { tells self.old ↔ tells self.new }
        ensures same { tells self.old → bytes self.new ≡ bytes self.old }
        ensures later { count self.old ≤ count self.new }
        ensures failed { OnErr result (Rose (count self.old) (count self.new)) }
    {
        Ok(())
    }

    /// The bytes from a place on that it has at hand, maybe none. It calls nothing.
    fn at_hand(&self, _at: u64) -> &[u8]
        ensures within { length result.now ≤ size self.now - _at }
        ensures bytes { tells self.now → result.now ≡ take (length result.now) (drop _at (bytes self.now)) }
    {
        &[]
    }

    /// How many faults it had since it came out of the disk. The count stays at `u64::MAX` once it is there.
    fn faults(&self) -> u64
        ensures { result ≡ count self.now };

    ghost decided: { (it : Self) → (IsTrue (told it) → tells it) × (tells it → IsTrue (told it)) };
}

/// Files by name. A file is at home, or is out and its name in use; then it exists too.
pub trait Disk {
    type File: FileStore;

    /// Whether it tells what it holds.
    ghost tells: { Self → Type 0 };

    /// The same as a truth value.
    ghost told: { Self → Bool };

    /// Its files, the names in use, and the names that are hurt.
    ghost held: { Self → Holdings };

    /// Its own number, which never falls: an `exists`, `take`, `create` or `remove` that answers `Failed` raises it,
    /// and no other call does.
    ghost refusals: { Self → ℕ };

    /// Its count of faults.
    ghost count: { Self → ℕ };

    /// Whether there is a file of that name, at home or out. It changes nothing that the disk holds.
    fn exists(&mut self, name: &str) -> Result<bool, Failed>
        ensures telling { tells self.old ↔ tells self.new }
        ensures same { tells self.old → held self.new ≡ held self.old }
        ensures answer { tells self.old → IfOk result (λ there. IsTrue there ↔ Exists (held self.old) name.now) }
        ensures own { tells self.old → CountsFailure (is_err result) (refusals self.old) (refusals self.new) }
        ensures later { count self.old ≤ count self.new }
        ensures failed { OnErr result (Rose (count self.old) (count self.new)) };

    /// Moves the file of a name that is not in use out of the disk; `None` where there is no such file. The name is
    /// then in use, and there is room for the file's return. After an `Err` the disk holds what it held.
    fn take(&mut self, alloc: Global, name: &str) -> Result<Option<Self::File>, Stop>
        requires { tells self.old → IsFree (held self.old) name.now }
        ensures telling { tells self.old ↔ tells self.new }
        ensures none { tells self.old → IfOk result (λ found. IfNone found (
            (map.get (held self.old).files name.now ≡ None) × (held self.new ≡ held self.old))) }
        ensures some { tells self.old → IfOk result (λ found. IfSome found (λ file. Self.File.tells file
            × (map.get (held self.old).files name.now ≡ Some (Self.File.bytes file))
            × (held self.new ≡ out_of (held self.old) name.now))) }
        ensures sound { IfOk result (λ found. IfSome found (λ file. Self.File.count file ≡ 0)) }
        ensures err { tells self.old → OnErr result (held self.new ≡ held self.old) }
        ensures own { tells self.old → CountsFailure (has_failed result) (refusals self.old) (refusals self.new) }
        ensures later { count self.old ≤ count self.new }
        ensures failed { result ≡ Err Stop.Failed → Rose (count self.old) (count self.new) };

    /// An empty file of a name that is not in use, in place of one that is there. The name is then in use, and there is
    /// room for the file's return. After an `Err` the name is as before or absent.
    fn create(&mut self, alloc: Global, name: &str) -> Result<Self::File, Stop>
        requires { tells self.old → IsFree (held self.old) name.now }
        ensures telling { tells self.old ↔ tells self.new }
        ensures ok { tells self.old → IfOk result (λ file. Self.File.tells file × (Self.File.bytes file ≡ [])
            × (held self.new ≡ out_of (held self.old) name.now)) }
        ensures empty { IfOk result (λ file. (Self.File.size file ≡ 0) × (Self.File.count file ≡ 0)) }
        ensures err { tells self.old → OnErr result ((held self.new ≡ held self.old) ⊎ (held self.new ≡ without (held self.old) name.now)) }
        ensures own { tells self.old → CountsFailure (has_failed result) (refusals self.old) (refusals self.new) }
        ensures later { count self.old ≤ count self.new }
        ensures failed { result ≡ Err Stop.Failed → Rose (count self.old) (count self.new) };

    /// Takes the file of a name in use back, with no need of memory. The name is hurt from then on where the file's
    /// count is not 0, and else it is not.
    fn give(&mut self, name: &str, file: Self::File)
        requires { tells self.old → IsInUse (held self.old) name.now }
        ensures telling { tells self.old ↔ tells self.new }
        ensures back { tells self.old →
            held self.new ≡ given (held self.old) name.now (Self.File.bytes file) (Self.File.count file == 0) }
        ensures own { tells self.old → CountsFailure false (refusals self.old) (refusals self.new) }
        ensures later { count self.old ≤ count self.new }
        ensures hurt { Self.File.count file ≢ 0 → Rose (count self.old) (count self.new) };

    /// Removes a file that exists and is not in use. After `Failed` the disk holds what it held.
    fn remove(&mut self, name: &str) -> Result<(), Failed>
        requires exists { tells self.old → Exists (held self.old) name.now }
        requires free { tells self.old → IsFree (held self.old) name.now }
        ensures telling { tells self.old ↔ tells self.new }
        ensures ok { tells self.old → OnOk result (held self.new ≡ without (held self.old) name.now) }
        ensures err { tells self.old → OnErr result (held self.new ≡ held self.old) }
        ensures own { tells self.old → CountsFailure (is_err result) (refusals self.old) (refusals self.new) }
        ensures later { count self.old ≤ count self.new }
        ensures failed { OnErr result (Rose (count self.old) (count self.new)) };

    /// How many faults it had, those of hurt files given back among them. The count stays at `u64::MAX` once it is
    /// there.
    fn faults(&self) -> u64
        ensures { result ≡ count self.now };

    ghost decided: { (it : Self) → (IsTrue (told it) → tells it) × (tells it → IsTrue (told it)) };
}
