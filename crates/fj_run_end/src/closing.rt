// Connections are closed: open records are ended, and the files go back to the disk.
ghost use Rattle.std.specs.Prelude.{◌≡◌, ◌≢◌, ◌↔◌, ◌≤◌, ◌==◌, ℕ, true, false, not, is_some, List, map, Some, None, Err, IfErr, IfSome, OnOk, OnErr, slice_get};
ghost use Rattle.std.specs.FinSet as set;
ghost use Rattle.fj_outside.specs.Faults.{Rose};
ghost use Rattle.fj_outside.specs.Holdings.{SameAt};
ghost use Rattle.fj_connect.specs.Linked.{connection_of};
ghost use Rattle.fj_connect.specs.Positions.{ended};
ghost use Rattle.fj_meaning_jobs.specs.Desks.{Desk};
ghost use Rattle.fj_meaning_jobs.specs.Desking.{all_left, left_by};
ghost use Rattle.fj_run_units.specs.Names.{stands, left_of, AreInUse};
ghost use Rattle.fj_run_units.specs.Files.{files_of};
ghost use Rattle.fj_run_units.specs.Returning.{returned, IsAsDue};
ghost use Rattle.fj_run_units.specs.Units.{connected_of};
ghost use Rattle.fj_run_end.specs.Losing.{is_memory, may_want};
ghost use Rattle.fj_run_end.specs.Remains.{AreOfDesks};
ghost use Rattle.fj_run_end.specs.Finding.{IsEndedUpTo, IsFound, IsFoundOf, OfEach, AreSpared};
ghost use Rattle.fj_run_end.specs.Closing.{AreAsDue, names_left, AreSeated, AreNamed, IfClear, SomeMayLack};
ghost use Rattle.fj_run_end.specs.Fitting.{CountsStop, HasItsOwn, HaveTheirOwn};
ghost use Rattle.fj_run_end.specs.declared.remains.Remains.{Remains as Remaining};

use crate::loss::{after, stop_by};
use crate::remains::Remains;
use fj_connect::Connection;
use fj_outside::{Disk, Failed, FileStore, Stop};
use fj_run_units::{Connected, Names};

/// Ends the open record of a connection, unless its slot stopped.
fn end_open<F: FileStore>(connection: &mut Connection<F>, stop: Option<Stop>) -> Result<(), Stop>
    ensures telling { F.tells connection.old.file ↔ F.tells connection.new.file }
    ensures ended { F.told connection.old.file ≡ true → OnOk result
        (connection_of F.bytes connection.new ≡ ended (connection_of F.bytes connection.old)) }
    ensures running { OnOk result (stop ≡ None) }
    ensures stopped { IfErr result (λ e. IfSome stop (λ s. e ≡ s)) }
    ensures until { F.told connection.old.file ≡ true → IsEndedUpTo stop (connection_of F.bytes connection.old) (F.bytes connection.new.file) }
    ensures name { connection.new.name ≡ connection.old.name }
    ensures failed { result ≡ Err Stop.Failed → CountsStop (F.count connection.old.file) stop → F.count connection.new.file ≢ 0 }
{
    if let Some(stop) = stop {
        return Err(stop);
    }
    connection.end_record()
}

/// Gives the file of a connection back, and takes its name off.
pub fn give_back<D: Disk>(
    connection: Connection<D::File>,
    keep: bool,
    names: &mut Names,
    disk: &mut D,
) -> Result<(), Failed>
    requires names { D.tells disk.old → AreInUse names.old (D.held disk.old).in_use }
    requires out { stands names.old connection.name ≡ true }
    ensures names { D.tells disk.old → AreInUse names.new (D.held disk.new).in_use }
    ensures off { names.new ≡ left_of names.old connection.name }
    ensures files { D.tells disk.old → OnOk result
        (files_of (D.held disk.new) ≡ returned connection.name (D.File.bytes connection.file) keep (files_of (D.held disk.old))) }
    ensures due { D.tells disk.old → (name : List ℕ) → IsAsDue (D.refusals disk.old) (D.refusals disk.new) (files_of (D.held disk.new) name)
        (returned connection.name (D.File.bytes connection.file) keep (files_of (D.held disk.old)) name) }
    ensures found { D.tells disk.old → IsFound keep (files_of (D.held disk.new) connection.name) (λ bytes. bytes ≡ D.File.bytes connection.file)
        (D.refusals disk.old) (D.refusals disk.new) }
    ensures count { D.tells disk.old → set.contains (D.held disk.new).hurt connection.name ≡ not (D.File.count connection.file == 0) }
    ensures others { D.tells disk.old → (name : List ℕ) → name ≢ connection.name → SameAt (D.held disk.old) (D.held disk.new) name }
    ensures own { D.tells disk.old → D.refusals disk.old ≤ D.refusals disk.new }
    ensures telling { D.tells disk.old ↔ D.tells disk.new }
    ensures later { D.count disk.old ≤ D.count disk.new }
    ensures hurt { D.File.count connection.file ≢ 0 → Rose (D.count disk.old) (D.count disk.new) }
    ensures failed { OnErr result (Rose (D.count disk.old) (D.count disk.new)) }
{
    names.remove(connection.name());
    connection.close_file(disk, keep)
}

/// Ends the open record of a connection, unless its slot stopped, and gives its file back. A scratch file is removed.
fn close<D: Disk>(
    connection: Connection<D::File>,
    stop: Option<Stop>,
    names: &mut Names,
    disk: &mut D,
) -> Result<(), Stop>
    requires names { D.tells disk.old → AreInUse names.old (D.held disk.old).in_use }
    requires out { stands names.old connection.name ≡ true }
    ensures names { D.tells disk.old → AreInUse names.new (D.held disk.new).in_use }
    ensures files { D.tells disk.old → CountsStop (D.File.count connection.file) stop → OnOk result ((stop ≡ None) × (D.File.told connection.file ≡ true
        → files_of (D.held disk.new) ≡ left_by (Some (connection_of D.File.bytes connection)) (files_of (D.held disk.old)))) }
    ensures due { D.tells disk.old → CountsStop (D.File.count connection.file) stop → is_memory result ≡ false → set.contains (D.held disk.new).hurt connection.name ≡ false
        → (stop ≡ None) × (D.File.told connection.file ≡ true → (name : List ℕ) → IsAsDue (D.refusals disk.old) (D.refusals disk.new) (files_of (D.held disk.new) name)
        (left_by (Some (connection_of D.File.bytes connection)) (files_of (D.held disk.old)) name)) }
    ensures found { D.tells disk.old → D.File.told connection.file ≡ true → IsFound (not connection.modes.scratch) (files_of (D.held disk.new) connection.name)
        (IsEndedUpTo stop (connection_of D.File.bytes connection)) (D.refusals disk.old) (D.refusals disk.new) }
    ensures others { D.tells disk.old → (name : List ℕ) → name ≢ connection.name → SameAt (D.held disk.old) (D.held disk.new) name }
    ensures own { D.tells disk.old → D.refusals disk.old ≤ D.refusals disk.new }

    // Told or not.
    ensures telling { D.tells disk.old ↔ D.tells disk.new }
    ensures later { D.count disk.old ≤ D.count disk.new }
    ensures failed { result ≡ Err Stop.Failed → Rose (D.count disk.old) (D.count disk.new) }
    ensures memory { is_memory result ≡ true → may_want stop ≡ true }
    ensures off { names.new ≡ left_of names.old connection.name }
{
    let mut connection = connection;
    let keep = !connection.modes().scratch;
    let ended = end_open(&mut connection, stop);
    let hurt = connection.faults() > 0;
    let given = give_back(connection, keep, names, disk);
    stop_by(ended, hurt, given)
}

/// The connection at a unit's slot, and what stopped the slot.
#[derive(Drop)]
struct Own<F: FileStore> {
    connection: Connection<F>,
    stop: Option<Stop>,
}

/// Takes the connection out of what remains of a unit's slot. There is none where its file is not known to be out.
fn take_own<F: FileStore>(
    unit: &Connected,
    all: &mut Vec<Remains<F>>,
    names: &Names,
) -> Option<Own<F>>
    ensures own { HasItsOwn F.count names.now all.old.items (connected_of unit.now) → is_some result ≡ true }
    ensures here { IfSome result (λ own. slice_get all.old.items unit.now.slot ≡ Some (record { connection = Some own.connection; stop = own.stop })) }
    ensures out { IfSome result (λ own. stands names.now own.connection.name ≡ true) }
    ensures others { (at : ℕ) → at ≢ unit.now.slot → slice_get all.new.items at ≡ slice_get all.old.items at }
    ensures gone { IfSome (slice_get all.new.items unit.now.slot) (λ it. it.connection ≡ None) }
{
    let at = unit.slot as usize;
    if at >= all.len() {
        return None;
    }
    let it = &mut all[at];
    let stop = it.stop;
    let Some(connection) = it.connection.take() else {
        return None;
    };
    if names.holds(connection.name()) {
        Some(Own { connection, stop })
    } else {
        None
    }
}

/// Closes the connection of a unit, where it has its own.
fn close_unit<D: Disk>(
    unit: &Connected,
    all: &mut Vec<Remains<D::File>>,
    names: &mut Names,
    disk: &mut D,
) -> Result<(), Stop>
    requires names { D.tells disk.old → AreInUse names.old (D.held disk.old).in_use }
    ensures names { D.tells disk.old → AreInUse names.new (D.held disk.new).in_use }
    ensures files { D.tells disk.old → HasItsOwn D.File.count names.old all.old.items (connected_of unit.now) → (desks : List Desk) (d : Desk)
        → AreOfDesks D.File.told D.File.bytes all.old.items desks → slice_get desks unit.now.slot ≡ Some d
        → OnOk result (files_of (D.held disk.new) ≡ left_by d.bay.connection (files_of (D.held disk.old))) }
    ensures due { D.tells disk.old → HasItsOwn D.File.count names.old all.old.items (connected_of unit.now) → is_memory result ≡ false → (desks : List Desk) (d : Desk)
        → AreOfDesks D.File.told D.File.bytes all.old.items desks → slice_get desks unit.now.slot ≡ Some d → IfSome d.bay.connection (λ c. c.name ≡ unit.now.name)
        → (name : List ℕ) → (name ≡ unit.now.name → set.contains (D.held disk.new).hurt name ≡ false)
        → IsAsDue (D.refusals disk.old) (D.refusals disk.new) (files_of (D.held disk.new) name) (left_by d.bay.connection (files_of (D.held disk.old)) name) }
    ensures running { D.tells disk.old → HasItsOwn D.File.count names.old all.old.items (connected_of unit.now) → is_memory result ≡ false
        → (it : Remaining D.File) × (slice_get all.old.items unit.now.slot ≡ Some it) × (set.contains (D.held disk.new).hurt unit.now.name ≡ false → it.stop ≡ None) }
    ensures found { D.tells disk.old → HasItsOwn D.File.count names.old all.old.items (connected_of unit.now)
        → (it : Remaining D.File) × (slice_get all.old.items unit.now.slot ≡ Some it) × IsFoundOf D.File.told D.File.bytes it unit.now.name (files_of (D.held disk.new) unit.now.name)
        (D.refusals disk.old) (D.refusals disk.new) }
    ensures spared { D.tells disk.old → HasItsOwn D.File.count names.old all.old.items (connected_of unit.now)
        → (name : List ℕ) → name ≢ unit.now.name → SameAt (D.held disk.old) (D.held disk.new) name }
    ensures own { D.tells disk.old → D.refusals disk.old ≤ D.refusals disk.new }

    // Told or not.
    ensures telling { D.tells disk.old ↔ D.tells disk.new }
    ensures later { D.count disk.old ≤ D.count disk.new }
    ensures failed { result ≡ Err Stop.Failed → Rose (D.count disk.old) (D.count disk.new) }
    ensures memory { is_memory result ≡ true → SomeMayLack all.old.items }
    ensures off { HasItsOwn D.File.count names.old all.old.items (connected_of unit.now) → names.new ≡ left_of names.old unit.now.name }
    ensures others { (at : ℕ) → at ≢ unit.now.slot → slice_get all.new.items at ≡ slice_get all.old.items at }
    ensures gone { IfSome (slice_get all.new.items unit.now.slot) (λ it. it.connection ≡ None) }
{
    let Some(own) = take_own(unit, all, names) else {
        return Ok(());
    };
    close(own.connection, own.stop, names, disk)
}

/// Closes the connections of units, one after another. What stops one of them does not keep the others from being closed: want of
/// memory is answered, else a failure.
pub(crate) fn close_each<D: Disk>(
    units: &[Connected],
    all: &mut Vec<Remains<D::File>>,
    names: &mut Names,
    disk: &mut D,
) -> Result<(), Stop>
    requires names { D.tells disk.old → AreInUse names.old (D.held disk.old).in_use }
    ensures names { D.tells disk.old → AreInUse names.new (D.held disk.new).in_use }
    ensures files { D.tells disk.old → HaveTheirOwn D.File.count names.old all.old.items (map connected_of units.now) → (desks : List Desk)
        → AreOfDesks D.File.told D.File.bytes all.old.items desks → AreSeated desks (map connected_of units.now)
        → OnOk result (files_of (D.held disk.new) ≡ all_left desks (map connected_of units.now) (files_of (D.held disk.old))) }
    ensures due { D.tells disk.old → HaveTheirOwn D.File.count names.old all.old.items (map connected_of units.now) → is_memory result ≡ false → (desks : List Desk)
        → AreOfDesks D.File.told D.File.bytes all.old.items desks → AreSeated desks (map connected_of units.now) → AreNamed desks (map connected_of units.now)
        → AreAsDue (D.refusals disk.old) (D.refusals disk.new) (D.held disk.new) (all_left desks (map connected_of units.now) (files_of (D.held disk.old))) }
    ensures running { D.tells disk.old → HaveTheirOwn D.File.count names.old all.old.items (map connected_of units.now) → is_memory result ≡ false
        → IfClear (D.held disk.new) (map connected_of units.now) all.old.items (λ it. it.stop ≡ None) }
    ensures found { D.tells disk.old → HaveTheirOwn D.File.count names.old all.old.items (map connected_of units.now)
        → OfEach (map connected_of units.now) all.old.items (λ u it. IsFoundOf D.File.told D.File.bytes it u.name (files_of (D.held disk.new) u.name)
        (D.refusals disk.old) (D.refusals disk.new)) }
    ensures spared { D.tells disk.old → HaveTheirOwn D.File.count names.old all.old.items (map connected_of units.now)
        → AreSpared (map connected_of units.now) (D.held disk.old) (D.held disk.new) }
    ensures own { D.tells disk.old → D.refusals disk.old ≤ D.refusals disk.new }

    // Told or not.
    ensures telling { D.tells disk.old ↔ D.tells disk.new }
    ensures later { D.count disk.old ≤ D.count disk.new }
    ensures failed { result ≡ Err Stop.Failed → Rose (D.count disk.old) (D.count disk.new) }
    ensures memory { is_memory result ≡ true → SomeMayLack all.old.items }
    ensures off { HaveTheirOwn D.File.count names.old all.old.items (map connected_of units.now) → names.new ≡ names_left (map connected_of units.now) names.old }
{
    let [unit, more @ ..] = units else {
        return Ok(());
    };
    let first = close_unit(unit, all, names, disk);
    let then = close_each(more, all, names, disk);
    after(first, then)
}
