//! A script served over queues, and the slots that come back.
ghost use Rattle.std.specs.Prelude.{true, false, ◌≡◌, ◌+◌, ◌<◌, ◌≤◌, ◌^◌, ℕ, List, length, Some, IsSome, IfOk, IfErr};
ghost use Rattle.fj_world.specs.Conduct.{Idle};
ghost use Rattle.fj_world.specs.Leading.{LeadsTo};
ghost use Rattle.fj_world.specs.Rack.{At};
ghost use Rattle.fj_world.specs.Plain.{PlainSlot, asked_next};
ghost use Rattle.fj_world.specs.Fits.{SlotsFit};
ghost use Rattle.fj_world.specs.Alone.{AllHome, OwesAsSaid, ServedAlone};
ghost use Rattle.fj_world.specs.Losing.{WasLost};
ghost use Rattle.fj_world.specs.Keeping.{AllCounted, CanGoOn, SomeStopped};
ghost use Rattle.fj_crew.specs.Plan.{AllSound, NumbersGoOn, SameNumbers};

use crate::floor::employ;
use crate::queues::{open, shut};
use fj_slot::Engine;
use fj_world::{Script, Slots};
use std::alloc::{AllocError, Global};
use std::collections::VecDeque;
use std::sync::Wait;
use std::thread::Threads;

/// Memory was refused before the first ask. The slots come back.
#[derive(Drop)]
pub struct CrewLost<E: Engine> {
    pub slots: Slots<E>,
    pub error: AllocError,
}

/// Serves every ask until the script has finished, each slot as a queue on which so many threads work besides. For every number
/// of them and every order of their steps the script and the slots end as where one thread serves them.
pub fn run_crew<S: Script + Send, R: Threads + Wait + Sync>(
    rt: &R,
    alloc: Global,
    script: &mut S,
    mut slots: Slots<S::Gear>,
    workers: u32,
) -> Result<Slots<S::Gear>, CrewLost<S::Gear>>
where
    S::Gear: Send,
    <S::Gear as Engine>::Job: Send,
    <S::Gear as Engine>::Answer: Send,
    requires idle { S.conduct.due script.old ≡ Idle }
    requires uses { S.conduct.uses script.old ≤ length slots.slots }
    requires few { (at : ℕ) → At slots at (λ l. length l.jobs + S.conduct.left script.old < 2 ^ 62) }
    requires owed { OwesAsSaid S.conduct script.old slots }
    requires home { AllHome slots }
    requires counted { AllCounted S.Gear.meaning slots }
    requires sound { IsSome (S.conduct.state script.old) → AllSound S.Gear.meaning slots.slots }
    ensures home { IfOk result (λ it. AllHome it) }
    ensures keeps { IfOk result (λ it. NumbersGoOn slots it) }
    ensures counted { IfOk result (λ it. AllCounted S.Gear.meaning it) }

    // The jobs submitted and told are those of which the script says so.
    ensures owed { IfOk result (λ it. OwesAsSaid S.conduct script.new it) }

    // It may be called once more, over these slots.
    ensures again { IfOk result (λ it. CanGoOn S.conduct script.old script.new it) }

    // Nothing but its calls was done with the script.
    ensures leads { IfOk result (λ it. LeadsTo S.conduct.leads script.old script.new) }

    // A script is told a stop of a slot that has stopped.
    ensures stopped { IfOk result (λ it. S.conduct.stopped script.old ≡ false → S.conduct.stopped script.new ≡ true → SomeStopped it) }
    ensures alone { IfOk result (λ it. (s : S.conduct.State) (qs : List (PlainSlot S.Gear.State S.Gear.Task)) → S.conduct.state script.old ≡ Some s
        → S.conduct.stopped script.old ≡ false → SlotsFit S.Gear.meaning qs slots → ServedAlone S.Gear.meaning S.conduct (asked_next S.Gear.meaning S.conduct s qs) script.new it) }

    // Where it is over, what it was before the call by which it was.
    ensures gave_up { IfOk result (λ it. (s : S.conduct.State) (qs : List (PlainSlot S.Gear.State S.Gear.Task)) → S.conduct.state script.old ≡ Some s
        → S.conduct.stopped script.old ≡ false → S.conduct.over script.old ≡ false → SlotsFit S.Gear.meaning qs slots → S.conduct.over script.new ≡ true
        → WasLost S.Gear.meaning S.conduct s qs script.old script.new it) }

    // Nothing was asked.
    ensures lost { IfErr result (λ it. (script.new ≡ script.old) × AllHome it.slots × SameNumbers slots it.slots) }
    ensures lost_counted { IfErr result (λ it. AllCounted S.Gear.meaning it.slots) }
    ensures lost_sound { IfErr result (λ it. (s : S.conduct.State) (qs : List (PlainSlot S.Gear.State S.Gear.Task)) → S.conduct.state script.old ≡ Some s
        → SlotsFit S.Gear.meaning qs slots → SlotsFit S.Gear.meaning qs it.slots) }
{
    let count = slots.len();
    let mut queues = VecDeque::new(alloc);
    let mut seats = VecDeque::new(alloc);
    if let Err(error) = queues.reserve(count) {
        queues.destroy_empty();
        return Err(CrewLost { slots, error });
    }
    if let Err(error) = seats.reserve(count) {
        queues.destroy_empty();
        return Err(CrewLost { slots, error });
    }
    match open(alloc, &*script, &mut slots, &mut queues, &mut seats) {
        Ok(()) => {
            let (queues, done) = employ(rt, alloc, script, queues, &mut seats, workers);
            shut(&mut slots, queues, seats);
            match done {
                Ok(()) => Ok(slots),
                Err(error) => Err(CrewLost { slots, error }),
            }
        }
        Err(error) => {
            shut(&mut slots, queues, seats);
            Err(CrewLost { slots, error })
        }
    }
}
