// How far the asks have come.
ghost use Rattle.std.specs.Prelude.{◌≡◌, ℕ, ◌+◌, ◌<◌, ◌≤◌, true, false, length, Some, IsSome};
ghost use Rattle.std.specs.List.{sum};
ghost use Rattle.fj_world.specs.Conduct.{IsSubmitting, IsSettling, owed_after_submit, owed_after_settle};
ghost use Rattle.fj_run_script.specs.declared.hand.Hand.TheVariants.{Idle, Submitting, Settling};
ghost use Rattle.fj_run_script.specs.Tallying.{due_of, MaySubmit, MaySettle, AreFew, owed_at, first_lost};

use crate::hand::Hand;
use fj_run_items::Lost;

/// How many asks may still come and how many jobs of each slot are not told; whether it is over, and why.
#[derive(Drop)]
pub(crate) struct Tally {
    pub(crate) hand: Hand,
    /// At most so many asks are left.
    pub(crate) left: u64,
    /// By slot, the jobs that were submitted and not told.
    pub(crate) owed: Vec<u64>,
    pub(crate) over: bool,
    /// It was told a stop.
    pub(crate) stopped: bool,
    /// What was lost first.
    pub(crate) lost: Option<Lost>,
    ghost submits: { MaySubmit hand over left },
    ghost settles: { MaySettle hand over left owed.items },
    ghost sixteen: { length owed.items ≡ 16 },
    ghost stop: { stopped ≡ true → over ≡ true },
    ghost lost_over: { IsSome lost → over ≡ true },
    ghost few: { AreFew left owed.items },
}

impl Tally {
    /// The ask of a job for a slot is at hand.
    pub(crate) fn submits(&mut self, slot: u32)
        requires over { self.old.over ≡ false }
        requires slot { slot < 16 }
        requires left { 0 < self.old.left }
        ensures hand { self.new.hand ≡ Submitting slot }
        ensures left { self.new.left ≡ self.old.left }
        ensures owed { self.new.owed ≡ self.old.owed }
        ensures over { self.new.over ≡ self.old.over }
        ensures stopped { self.new.stopped ≡ self.old.stopped }
        ensures lost { self.new.lost ≡ self.old.lost }
    {
        self.hand = Hand::Submitting(slot);
    }

    /// The ask for the answer of a slot is at hand.
    pub(crate) fn settles(&mut self, slot: u32)
        requires over { self.old.over ≡ false }
        requires slot { slot < 16 }
        requires owed { 0 < owed_at self.old.owed.items slot }
        requires left { 0 < self.old.left }
        ensures hand { self.new.hand ≡ Settling slot }
        ensures left { self.new.left ≡ self.old.left }
        ensures owed { self.new.owed ≡ self.old.owed }
        ensures over { self.new.over ≡ self.old.over }
        ensures stopped { self.new.stopped ≡ self.old.stopped }
        ensures lost { self.new.lost ≡ self.old.lost }
    {
        self.hand = Hand::Settling(slot);
    }

    /// It is given up: that was lost.
    pub(crate) fn lose(&mut self, lost: Lost)
        ensures hand { self.new.hand ≡ Idle }
        ensures over { self.new.over ≡ true }
        ensures left { self.new.left ≡ self.old.left }
        ensures owed { self.new.owed ≡ self.old.owed }
        ensures stopped { self.new.stopped ≡ self.old.stopped }
        ensures lost { self.new.lost ≡ first_lost self.old.lost lost }
    {
        self.hand = Hand::Idle;
        self.over = true;
        if self.lost.is_none() {
            self.lost = Some(lost);
        }
    }

    /// The job at hand was taken.
    pub(crate) fn submitted(&mut self)
        requires { IsSubmitting (due_of self.old.hand) }
        ensures hand { self.new.hand ≡ Idle }
        ensures left { self.new.left + 1 ≡ self.old.left }
        ensures sum { sum self.new.owed.items ≡ sum self.old.owed.items + 1 }
        ensures owed { (slot : ℕ) → owed_at self.new.owed.items slot ≡ owed_after_submit (due_of self.old.hand) (owed_at self.old.owed.items) slot }
        ensures over { self.new.over ≡ self.old.over }
        ensures stopped { self.new.stopped ≡ self.old.stopped }
        ensures lost { self.new.lost ≡ self.old.lost }
    {
        let Hand::Submitting(slot) = self.hand else {
            unreachable!();
        };
        let owed = self.owed[slot as usize];
        self.left -= 1;
        self.owed[slot as usize] = owed + 1;
        self.hand = Hand::Idle;
    }

    /// The job at hand was refused.
    pub(crate) fn refused(&mut self, lost: Lost)
        requires { IsSubmitting (due_of self.old.hand) }
        ensures hand { self.new.hand ≡ Idle }
        ensures left { self.new.left < self.old.left }
        ensures owed { self.new.owed ≡ self.old.owed }
        ensures over { self.new.over ≡ true }
        ensures stopped { self.new.stopped ≡ self.old.stopped }
        ensures lost { self.new.lost ≡ first_lost self.old.lost lost }
    {
        let Hand::Submitting(_) = self.hand else {
            unreachable!();
        };
        self.hand = Hand::Idle;
        self.left -= 1;
        self.lose(lost);
    }

    /// The answer at hand was told, or a stop.
    pub(crate) fn settled(&mut self)
        requires { IsSettling (due_of self.old.hand) }
        ensures hand { self.new.hand ≡ Idle }
        ensures left { self.new.left + 1 ≡ self.old.left }
        ensures sum { sum self.new.owed.items + 1 ≡ sum self.old.owed.items }
        ensures owed { (slot : ℕ) → owed_at self.new.owed.items slot ≡ owed_after_settle (due_of self.old.hand) (owed_at self.old.owed.items) slot }
        ensures over { self.new.over ≡ self.old.over }
        ensures stopped { self.new.stopped ≡ self.old.stopped }
        ensures lost { self.new.lost ≡ self.old.lost }
    {
        let Hand::Settling(slot) = self.hand else {
            unreachable!();
        };
        let owed = self.owed[slot as usize];
        self.left -= 1;
        self.owed[slot as usize] = owed - 1;
        self.hand = Hand::Idle;
    }

    /// It was told a stop.
    pub(crate) fn stop(&mut self)
        requires { self.old.hand ≡ Idle }
        ensures hand { self.new.hand ≡ Idle }
        ensures left { self.new.left ≡ self.old.left }
        ensures owed { self.new.owed ≡ self.old.owed }
        ensures over { self.new.over ≡ true }
        ensures stopped { self.new.stopped ≡ true }
        ensures lost { self.new.lost ≡ self.old.lost }
    {
        self.over = true;
        self.stopped = true;
    }
}
