//! What workers wait for, and the script's thread. No clause rests on it: docs/DESIGN.md says why no job is left beside a worker that sleeps.
use crossbeam_utils::sync::{EventCount, Key};
use std::sync::Wait;
use std::sync::atomic::Ordering::SeqCst;
use std::sync::atomic::{AtomicBool, AtomicU64};

/// No slot.
pub(crate) const NONE: u64 = u64::MAX;

/// Of so many slots it is known whether a long job was submitted.
const KNOWN: u64 = 64;

/// A worker is new until it is called, then it looks for work, is at a job, or is asleep. Who has made a job due rings for one that is
/// not at a job, unless one looks, which looks once more before it sleeps.
#[derive(Drop)]
pub(crate) struct Signals {
    over: AtomicBool,
    /// How many workers are new.
    new: AtomicU64,
    /// Whether a new worker is to begin.
    called: AtomicBool,
    calls: EventCount,
    /// How many workers look for work.
    looking: AtomicU64,
    /// How many workers are asleep, or about to look a last time.
    asleep: AtomicU64,
    work: EventCount,
    /// The slot of a short job of which no worker was told yet: the script itself performs it where it settles it next, and waking a
    /// worker would take longer.
    short: AtomicU64,
    /// The slots with a long job, one a bit.
    long: AtomicU64,
    /// The slot of the job that the script's thread waits for.
    awaited: AtomicU64,
    ended: EventCount,
}

impl Signals {
    pub(crate) fn new(workers: u32) -> Signals {
        Signals {
            over: AtomicBool::new(false),
            new: AtomicU64::new(workers as u64),
            called: AtomicBool::new(false),
            calls: EventCount::new(),
            looking: AtomicU64::new(0),
            asleep: AtomicU64::new(0),
            work: EventCount::new(),
            short: AtomicU64::new(NONE),
            long: AtomicU64::new(0),
            awaited: AtomicU64::new(NONE),
            ended: EventCount::new(),
        }
    }

    /// Where a job is due: one that is asleep wakes, or else a new one begins. While one looks, a ring is for no one.
    pub(crate) fn ring_if(&self, due: bool) {
        if !due || self.looking.load(SeqCst) != 0 {
            return;
        }
        if self.asleep.load(SeqCst) != 0 {
            self.work.notify_one();
        } else if self.new.load(SeqCst) != 0 {
            self.called.store(true, SeqCst);
            self.calls.notify_one();
        }
    }

    /// A new worker waits until it is called. Tells whether it was, before the script finished.
    pub(crate) fn is_called<R: Wait>(&self, rt: &R) -> bool {
        for _ in rt.forever() {
            let call = self.calls.prepare_wait();
            if self.is_over() {
                return false;
            }
            if self.called.swap(false, SeqCst) {
                let _before = self.new.fetch_sub(1, SeqCst);
                return true;
            }
            call.wait(rt);
        }
        unreachable!()
    }

    /// A worker looks for work.
    pub(crate) fn looks(&self) {
        self.looking.fetch_add(1, SeqCst);
    }

    /// A worker looks for work no more. Tells whether it was the last one.
    pub(crate) fn looks_no_more(&self) -> bool {
        self.looking.fetch_sub(1, SeqCst) == 1
    }

    /// A worker that looked is about to sleep, before it looks a last time. It is not counted as looking then: it is rung for.
    pub(crate) fn lies_down(&self) -> Key<'_> {
        let wait = self.work.prepare_wait();
        self.asleep.fetch_add(1, SeqCst);
        self.looking.fetch_sub(1, SeqCst);
        wait
    }

    /// It looks again.
    pub(crate) fn gets_up(&self) {
        self.looking.fetch_add(1, SeqCst);
        self.asleep.fetch_sub(1, SeqCst);
    }

    /// Whether no worker is at a job.
    pub(crate) fn is_one_free(&self) -> bool {
        self.looking.load(SeqCst) != 0
            || self.asleep.load(SeqCst) != 0
            || self.new.load(SeqCst) != 0
    }

    /// Of a short job the workers hear later. Tells the slot of one submitted before, of which they are to hear now.
    pub(crate) fn holds_back(&self, slot: u64) -> u64 {
        self.short.swap(slot, SeqCst)
    }

    /// No job is held back any more. Tells the slot of the one that was.
    pub(crate) fn holds_none(&self) -> u64 {
        let short = self.short.load(SeqCst);
        if short != NONE {
            self.short.store(NONE, SeqCst);
        }
        short
    }

    /// A long job was submitted to a slot.
    pub(crate) fn marks_long(&self, slot: u64) {
        if slot < KNOWN {
            self.long.fetch_or(1 << slot, SeqCst);
        }
    }

    /// No job of a slot is left.
    pub(crate) fn marks_empty(&self, slot: u64) {
        if slot < KNOWN {
            self.long.fetch_and(!(1 << slot), SeqCst);
        }
    }

    /// Whether a slot may have a long job.
    pub(crate) fn may_be_long(&self, slot: u64) -> bool {
        slot >= KNOWN || self.long.load(SeqCst) & (1 << slot) != 0
    }

    /// The script's thread is about to wait for a job of a slot that is out, before it looks a last time.
    pub(crate) fn awaits(&self, slot: u64) -> Key<'_> {
        self.awaited.store(slot, SeqCst);
        self.ended.prepare_wait()
    }

    /// A worker ended a job of a slot.
    pub(crate) fn ended(&self, slot: u64) {
        if self.awaited.load(SeqCst) == slot {
            self.ended.notify_one();
        }
    }

    /// The script has finished.
    pub(crate) fn finish(&self) {
        self.over.store(true, SeqCst);
        self.work.notify_all();
        self.calls.notify_all();
    }

    pub(crate) fn is_over(&self) -> bool {
        self.over.load(SeqCst)
    }
}
