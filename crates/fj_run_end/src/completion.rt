// A run is brought to its end on its slots and its disk.
ghost use Rattle.std.specs.Prelude.{◌≡◌, ◌↔◌, ◌≤◌, [], false, List, None, length, vec_capacity, Err, OnOk};
ghost use Rattle.fj_outside.specs.Faults.{Rose};
ghost use Rattle.fj_world.specs.Alone.{AllHome};
ghost use Rattle.fj_slot.specs.Sound.{IsSound};
ghost use Rattle.fj_bay.specs.Bay.{Bay as PlainBay};
ghost use Rattle.fj_bay.specs.Jobs.{Job as PlainJob};
ghost use Rattle.fj_bay.specs.Meaning.{bay_meaning};
ghost use Rattle.fj_meaning_jobs.specs.Desks.{Desk};
ghost use Rattle.fj_meaning_jobs.specs.Desking.{all_left};
ghost use Rattle.fj_meaning_turns.specs.Executing.{HoldsDesks};
ghost use Rattle.fj_run_units.specs.Names.{AreInUse};
ghost use Rattle.fj_run_units.specs.Files.{files_of};
ghost use Rattle.fj_run_end.specs.Losing.{is_memory};
ghost use Rattle.fj_run_end.specs.Fitting.{FitUnits};
ghost use Rattle.fj_run_end.specs.Finding.{IsLeftBehind, OfEach, AreSpared};
ghost use Rattle.fj_run_end.specs.Closing.{AreAsDue, names_left, AreSeated, AreNamed, IfClear, OthersRun, IsFinished};

use crate::closing::close_each;
use crate::remains::{Remains, what_remains};
use fj_bay::Bay;
use fj_outside::{Disk, Stop};
use fj_run_units::{Names, Units};
use fj_world::Slots;

/// Performs the jobs that are left, as far as their slots have not stopped, ends open records, and gives the files of the units
/// back, in ascending order of these. It takes no memory of its own, since there is room for what remains of the slots; so each
/// of these files goes back, whatever stopped one of them.
pub fn finish<D: Disk>(
    units: &Units,
    slots: Slots<Bay<D::File>>,
    room: Vec<Remains<D::File>>,
    names: &mut Names,
    disk: &mut D,
) -> Result<(), Stop>
    requires home { AllHome slots }
    requires empty { room.items ≡ [] }
    requires room { length slots.slots ≤ vec_capacity room }
    requires names { D.tells disk.old → AreInUse names.old (D.held disk.old).in_use }
    ensures names { D.tells disk.old → AreInUse names.new (D.held disk.new).in_use }
    ensures files { D.tells disk.old → FitUnits (bay_meaning D.File.told D.File.bytes D.File.count) slots names.old units.now → (desks : List Desk)
        → HoldsDesks (bay_meaning D.File.told D.File.bytes D.File.count) slots desks → AreSeated desks units.now
        → OnOk result (files_of (D.held disk.new) ≡ all_left desks units.now (files_of (D.held disk.old))) }
    ensures due { D.tells disk.old → FitUnits (bay_meaning D.File.told D.File.bytes D.File.count) slots names.old units.now → is_memory result ≡ false → (desks : List Desk)
        → HoldsDesks (bay_meaning D.File.told D.File.bytes D.File.count) slots desks → AreSeated desks units.now → AreNamed desks units.now
        → AreAsDue (D.refusals disk.old) (D.refusals disk.new) (D.held disk.new) (all_left desks units.now (files_of (D.held disk.old))) }
    ensures running { D.tells disk.old → FitUnits (bay_meaning D.File.told D.File.bytes D.File.count) slots names.old units.now → is_memory result ≡ false
        → IfClear (D.held disk.new) units.now slots.slots (λ l. l.halt ≡ None) }
    ensures found { D.tells disk.old → FitUnits (bay_meaning D.File.told D.File.bytes D.File.count) slots names.old units.now
        → OfEach units.now slots.slots (λ u l. (s : PlainBay) (ts : List PlainJob)
        → IsSound (bay_meaning D.File.told D.File.bytes D.File.count) s ts l → IsLeftBehind l s ts u.name (files_of (D.held disk.new) u.name)
        (D.refusals disk.old) (D.refusals disk.new)) }
    ensures spared { D.tells disk.old → FitUnits (bay_meaning D.File.told D.File.bytes D.File.count) slots names.old units.now
        → AreSpared units.now (D.held disk.old) (D.held disk.new) }
    ensures own { D.tells disk.old → D.refusals disk.old ≤ D.refusals disk.new }

    // Told or not.
    ensures telling { D.tells disk.old ↔ D.tells disk.new }
    ensures later { D.count disk.old ≤ D.count disk.new }
    ensures failed { result ≡ Err Stop.Failed → Rose (D.count disk.old) (D.count disk.new) }
    ensures off { FitUnits (bay_meaning D.File.told D.File.bytes D.File.count) slots names.old units.now → names.new ≡ names_left units.now names.old }
    ensures others { FitUnits (bay_meaning D.File.told D.File.bytes D.File.count) slots names.old units.now → OthersRun units.now slots.slots }
    ensures remains { IsFinished (bay_meaning D.File.told D.File.bytes D.File.count) slots result }
{
    let mut all = what_remains(slots, room);
    close_each(units.as_slice(), &mut all, names, disk)
}
