//! A script served with workers, or alone where there are none.
ghost use Rattle.std.specs.Prelude.{true, false, ◌≡◌, ◌+◌, ◌<◌, ◌≤◌, ◌^◌, ℕ, List, length, Some, IsSome};
ghost use Rattle.fj_world.specs.Conduct.{Idle};
ghost use Rattle.fj_world.specs.Leading.{LeadsTo};
ghost use Rattle.fj_world.specs.Rack.{At};
ghost use Rattle.fj_world.specs.Plain.{PlainSlot, asked_next};
ghost use Rattle.fj_world.specs.Fits.{SlotsFit};
ghost use Rattle.fj_world.specs.Alone.{AllHome, OwesAsSaid, ServedAlone};
ghost use Rattle.fj_world.specs.Losing.{WasLost};
ghost use Rattle.fj_world.specs.Keeping.{AllCounted, CanGoOn, SomeStopped};
ghost use Rattle.fj_crew.specs.Plan.{AllSound, NumbersGoOn};

use crate::crew::run_crew;
use fj_slot::Engine;
use fj_world::{Script, Slots, run_alone};
use std::alloc::Global;
use std::mem;
use std::sync::Wait;
use std::thread::Threads;

/// Serves every ask until the script has finished, with so many threads besides; on the calling thread alone where there are none,
/// or where memory for them is refused. For every number of them and every order of their steps the script and the slots end as
/// where one thread serves them.
pub fn serve_with<S: Script + Send, R: Threads + Wait + Sync>(
    rt: &R,
    alloc: Global,
    script: &mut S,
    slots: &mut Slots<S::Gear>,
    workers: u32,
)
where
    S::Gear: Send,
    <S::Gear as Engine>::Job: Send,
    <S::Gear as Engine>::Answer: Send,
    requires idle { S.conduct.due script.old ≡ Idle }
    requires uses { S.conduct.uses script.old ≤ length slots.old.slots }
    requires few { (at : ℕ) → At slots.old at (λ l. length l.jobs + S.conduct.left script.old < 2 ^ 62) }
    requires owed { OwesAsSaid S.conduct script.old slots.old }
    requires home { AllHome slots.old }
    requires counted { AllCounted S.Gear.meaning slots.old }
    requires sound { IsSome (S.conduct.state script.old) → AllSound S.Gear.meaning slots.old.slots }
    ensures home { AllHome slots.new }
    ensures keeps { NumbersGoOn slots.old slots.new }
    ensures counted { AllCounted S.Gear.meaning slots.new }

    // The jobs submitted and told are those of which the script says so.
    ensures owed { OwesAsSaid S.conduct script.new slots.new }

    // It may be called once more, over these slots.
    ensures again { CanGoOn S.conduct script.old script.new slots.new }

    // Nothing but its calls was done with the script.
    ensures leads { LeadsTo S.conduct.leads script.old script.new }

    // A script is told a stop of a slot that has stopped.
    ensures stopped { S.conduct.stopped script.old ≡ false → S.conduct.stopped script.new ≡ true → SomeStopped slots.new }
    ensures alone { (s : S.conduct.State) (qs : List (PlainSlot S.Gear.State S.Gear.Task)) → S.conduct.state script.old ≡ Some s
        → S.conduct.stopped script.old ≡ false → SlotsFit S.Gear.meaning qs slots.old → ServedAlone S.Gear.meaning S.conduct (asked_next S.Gear.meaning S.conduct s qs) script.new slots.new }

    // Where it is over, what it was before the call by which it was.
    ensures gave_up { (s : S.conduct.State) (qs : List (PlainSlot S.Gear.State S.Gear.Task)) → S.conduct.state script.old ≡ Some s
        → S.conduct.stopped script.old ≡ false → S.conduct.over script.old ≡ false → SlotsFit S.Gear.meaning qs slots.old → S.conduct.over script.new ≡ true
        → WasLost S.Gear.meaning S.conduct s qs script.old script.new slots.new }
{
    if workers == 0 {
        run_alone(script, slots);
        return;
    }
    let given = mem::replace(slots, Slots::new(alloc));
    match run_crew(rt, alloc, script, given, workers) {
        Ok(back) => *slots = back,
        Err(lost) => {
            *slots = lost.slots;
            run_alone(script, slots);
        }
    }
}
