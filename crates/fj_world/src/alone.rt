// A script served on one thread.
ghost use Rattle.std.specs.Prelude.{false, ◌≡◌, ℕ, ◌+◌, ◌<◌, ◌≤◌, ◌^◌, true, List, length, Some, is_some, slice_get};
ghost use Rattle.fj_slot.specs.Ledger.{Ledger, can_begin};
ghost use Rattle.fj_world.specs.Conduct.{Idle};
ghost use Rattle.fj_world.specs.Leading.{LeadsTo};
ghost use Rattle.fj_world.specs.Rack.{At};
ghost use Rattle.fj_world.specs.Plain.{PlainSlot, asked_next};
ghost use Rattle.fj_world.specs.Fits.{SlotsFit};
ghost use Rattle.fj_world.specs.Keeping.{AllCounted, AllGoOn, CanGoOn, SomeStopped};
ghost use Rattle.fj_world.specs.Alone.{ServesFront, Settles, AllHome, OwesAsSaid, ServedAlone};
ghost use Rattle.fj_world.specs.Losing.{WasLost};

use crate::ask::Ask;
use crate::script::Script;
use crate::slots::Slots;
use fj_slot::{Engine, Told};
use std::mem;

/// Serves every ask until the script has finished. A settle performs the jobs in front.
pub fn run_alone<S: Script>(script: &mut S, slots: &mut Slots<S::Gear>)
    requires idle { S.conduct.due script.old ≡ Idle }
    requires uses { S.conduct.uses script.old ≤ length slots.old.slots }
    requires few { (at : ℕ) → At slots.old at (λ l. length l.jobs + S.conduct.left script.old < 2 ^ 62) }
    requires owed { OwesAsSaid S.conduct script.old slots.old }
    requires home { AllHome slots.old }
    ensures home { AllHome slots.new }
    ensures keeps { AllGoOn slots.old slots.new }
    ensures counted { AllCounted S.Gear.meaning slots.old → AllCounted S.Gear.meaning slots.new }

    // It may be called once more, over these slots.
    ensures again { CanGoOn S.conduct script.old script.new slots.new }

    // A script is told a stop of a slot that has stopped.
    ensures stopped { S.conduct.stopped script.old ≡ false → S.conduct.stopped script.new ≡ true → SomeStopped slots.new }

    // The jobs submitted and told are those of which the script says so.
    ensures owed { OwesAsSaid S.conduct script.new slots.new }

    // Nothing but its calls was done with the script.
    ensures leads { LeadsTo S.conduct.leads script.old script.new }
    ensures alone { (s : S.conduct.State) (qs : List (PlainSlot S.Gear.State S.Gear.Task)) → S.conduct.state script.old ≡ Some s
        → S.conduct.stopped script.old ≡ false → SlotsFit S.Gear.meaning qs slots.old → ServedAlone S.Gear.meaning S.conduct (asked_next S.Gear.meaning S.conduct s qs) script.new slots.new }

    // Where it is over, what it was before the call by which it was.
    ensures gave_up { (s : S.conduct.State) (qs : List (PlainSlot S.Gear.State S.Gear.Task)) → S.conduct.state script.old ≡ Some s
        → S.conduct.stopped script.old ≡ false → S.conduct.over script.old ≡ false → SlotsFit S.Gear.meaning qs slots.old → S.conduct.over script.new ≡ true
        → WasLost S.Gear.meaning S.conduct s qs script.old script.new slots.new }
{
    let mut hand = script.ask();
    loop {
        match mem::replace(&mut hand, Ask::Finished) {
            Ask::Submit { slot, job } => {
                let number = slots.submit(slot as usize, job);
                script.took(number);
                hand = script.ask();
                continue;
            }
            Ask::Settle { slot } => {
                let told = settle::<S>(slots, slot as usize);
                script.told(told);
                hand = script.ask();
                continue;
            }
            Ask::Finished => return,
        }
    }
}

#[inline(always)]
fn settle<S: Script>(slots: &mut Slots<S::Gear>, at: usize) -> Told<S::Gear>
    requires within { at < length slots.old.slots }
    requires home { At slots.old at (λ l. is_some l.home ≡ true) }
    requires waits { At slots.old at (λ l. l.told < length l.jobs) }
    ensures settles { At slots.old at (λ l. Settles S.Gear.meaning slots.old at l result slots.new) }
    ensures spare { slots.new.spare ≡ slots.old.spare }
{
    while !slots.ready(at) {
        serve_front::<S>(slots, at);
    }
    slots.tell(at)
}

#[inline(always)]
fn serve_front<S: Script>(slots: &mut Slots<S::Gear>, at: usize)
    requires within { at < length slots.old.slots }
    requires begins { At slots.old at (λ l. can_begin l ≡ true) }
    ensures serves { At slots.old at (λ l. ServesFront S.Gear.meaning slots.old at l slots.new) }
    ensures spare { slots.new.spare ≡ slots.old.spare }
{
    let Some(mut out) = slots.begin(at) else {
        unreachable!();
    };
    let before = out.engine.faults();
    let got = out.engine.perform(&mut out.job);
    slots.end(at, out, got, before);
}
