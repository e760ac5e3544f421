//! A script's asks, served by queues.
ghost use Rattle.std.specs.Prelude.{◌≡◌, ◌⊎◌, ◌≤◌, true, false, length};
ghost use Rattle.fj_world.specs.Conduct.{Idle};
ghost use Rattle.fj_world.specs.Leading.{LeadsTo};
ghost use Rattle.fj_world.specs.declared.ask.Ask.TheVariants.{Finished};
ghost use Rattle.fj_world.specs.Plain.{asked_next};
ghost use Rattle.fj_crew.specs.Seats.{Paired};
ghost use Rattle.fj_crew.specs.Team.{AllServe};
ghost use Rattle.fj_crew.specs.Fits.{NoJobs, SeatsSame, SeatsGoOn, OwesAsSaid, FewJobs, AllAnswered, SomeTold, Begun, CrewGoes, CrewGaveUp};

use crate::seats::{settle_at, submit_at};
use crate::signals::Signals;
use fj_queue::{Hand, Queue, Submitter};
use fj_world::{Ask, Script};
use std::collections::VecDeque;
use std::mem;
use std::sync::Wait;

/// Serves every ask until the script has finished.
pub(crate) fn serve<S: Script, R: Wait>(
    rt: &R,
    script: &mut S,
    queues: &VecDeque<Queue<S::Gear>>,
    seats: &mut VecDeque<Submitter<S::Gear>>,
    own: &mut VecDeque<Hand<S::Gear>>,
    signals: &Signals,
)
    requires idle { S.conduct.due script.old ≡ Idle }
    requires uses { S.conduct.uses script.old ≤ length seats.old.items }
    requires few { FewJobs S.conduct script.old seats.old.items }
    requires owed { OwesAsSaid S.conduct script.old seats.old.items }
    requires paired { Paired queues.now.items seats.old.items }
    requires serves { AllServe queues.now.items own.old.items }
    requires planned { NoJobs seats.old.items ⊎ Begun S.Gear.meaning S.conduct script.old seats.old.items }
    ensures serves { AllServe queues.now.items own.new.items }
    ensures paired { Paired queues.now.items seats.new.items }
    ensures same { SeatsSame seats.old.items seats.new.items }
    ensures owed { OwesAsSaid S.conduct script.new seats.new.items }
    ensures answered { AllAnswered seats.old.items → S.conduct.over script.new ≡ false → AllAnswered seats.new.items }
    ensures stopped { S.conduct.stopped script.old ≡ false → S.conduct.stopped script.new ≡ true → SomeTold seats.new.items }
    ensures again { SeatsGoOn S.conduct script.old script.new seats.new.items }
    ensures leads { LeadsTo S.conduct.leads script.old script.new }
    ensures alone { (b : Begun S.Gear.meaning S.conduct script.old seats.old.items)
        → CrewGoes S.Gear.meaning S.conduct (S.conduct.stopped script.old) (AllAnswered seats.old.items) (asked_next S.Gear.meaning S.conduct b.state b.slots) (S.conduct.left script.old) script.new Finished seats.new.items }
    ensures gave_up { (b : Begun S.Gear.meaning S.conduct script.old seats.old.items) → S.conduct.over script.old ≡ false → S.conduct.over script.new ≡ true
        → CrewGaveUp S.Gear.meaning S.conduct (AllAnswered seats.old.items) (S.conduct.left script.old) b.state b.slots script.old script.new seats.new.items }
{
    let mut hand = script.ask();
    loop {
        match mem::replace(&mut hand, Ask::Finished) {
            Ask::Submit { slot, job } => {
                let number = submit_at(rt, queues, seats, signals, slot as usize, job);
                script.took(number);
                hand = script.ask();
                continue;
            }
            Ask::Settle { slot } => {
                let told = settle_at(rt, queues, seats, own, signals, slot as usize);
                script.told(told);
                hand = script.ask();
                continue;
            }
            Ask::Finished => return,
        }
    }
}
