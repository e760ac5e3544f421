// Which transfer an answer belongs to, and putting it there.
ghost use Rattle.std.specs.Prelude.{◌≡◌, ◌<◌, ◌≤◌, true, false, ℕ, All, HoldsAt, IfSome, IfNone, get_or, slice_set, length};
ghost use Rattle.fj_run_pending.specs.declared.held.Held.{Held};
ghost use Rattle.fj_run_pending.specs.Answers.{is_at, waits_at, with_told, NoneWaits};
ghost use Rattle.fj_run_pending.specs.Tied.{IsAscending, IsRising, IsMarked, mark_at};

use crate::held::{Held, Told};
use crate::mark::Mark;
use std::collections::VecDeque;

/// The mark of a slot.
pub(crate) fn mark_at(marks: &Vec<Mark>, slot: u32) -> Mark
    ensures { result ≡ mark_at marks.now.items slot }
{
    let at = slot as usize;
    if at < marks.len() {
        return marks[at];
    }
    Mark {
        passed: 0,
        reached: 0,
        most: 0,
    }
}

/// Marks a slot.
pub(crate) fn put_mark(marks: &mut Vec<Mark>, slot: u32, mark: Mark)
    ensures { marks.new.items ≡ slice_set marks.old.items slot mark }
{
    let at = slot as usize;
    if at < marks.len() {
        marks[at] = mark;
    }
}

/// Whether a transfer is of the slot, and has no answer.
fn waits_at(held: &Held, slot: u32) -> bool
    ensures { result ≡ waits_at slot held.now }
{
    held.slot == slot && held.answer.is_none()
}

/// Whether the job of a transfer has the number at the slot.
fn is_at(held: &Held, slot: u32, number: u64) -> bool
    ensures { result ≡ is_at slot number held.now }
{
    held.slot == slot && held.number == number
}

/// How many of the first transfers have identifiers below this one. It is looked for first where it stands if none is missing.
pub(crate) fn below(helds: &VecDeque<Held>, id: u64) -> usize
    requires { IsAscending helds.now.items }
    ensures bound { result ≤ length helds.now.items }
    ensures low { (k : ℕ) (h : Held) → k < result → (get_or helds.now.items k h).tag.0 < id }
{
    let Some(first) = helds.front() else {
        return 0;
    };
    let ahead = id.saturating_sub(u64::from(first.tag.0)) as usize;
    if ahead == 0 {
        return 0;
    }
    if ahead < helds.len() && u64::from(helds[ahead].tag.0) == id {
        return ahead;
    }
    let at = helds.partition_point(|held| (held.tag.0 as u64) < id);
    at
}

/// Where the first transfer from a place on stands that is of the slot and has no answer; the number of all where there is none.
fn first_waiting(helds: &VecDeque<Held>, slot: u32, from: usize) -> usize
    requires { NoneWaits slot helds.now.items from }
    ensures passed { NoneWaits slot helds.now.items result }
    ensures found { result < length helds.now.items → HoldsAt (λ h. waits_at slot h ≡ true) helds.now.items result }
{
    for at in from..helds.len() {
        if waits_at(&helds[at], slot) {
            return at;
        }
    }
    helds.len()
}

/// Where the transfer with the number at the slot stands, by looking at each.
fn look_for(helds: &VecDeque<Held>, slot: u32, number: u64) -> Option<usize>
    ensures some { IfSome result (λ at. (at < length helds.now.items) × HoldsAt (λ h. is_at slot number h ≡ true) helds.now.items at) }
    ensures none { IfNone result (All (λ h. is_at slot number h ≡ false) helds.now.items) }
{
    for at in 0..helds.len() {
        if is_at(&helds[at], slot, number) {
            return Some(at);
        }
    }
    None
}

/// An identifier such that those with lower ones are among so many first transfers.
fn id_at(helds: &VecDeque<Held>, at: usize) -> u64
    requires { IsAscending helds.now.items }
    ensures { (k : ℕ) (h : Held) → k < length helds.now.items → (get_or helds.now.items k h).tag.0 < result → k < at }
{
    if at < helds.len() {
        u64::from(helds[at].tag.0)
    } else {
        4294967296
    }
}

/// Where the transfer with the number at the slot stands. It looks first where the one stands that was answered last.
pub(crate) fn seek(
    helds: &VecDeque<Held>,
    marks: &Vec<Mark>,
    slot: u32,
    number: u64,
) -> Option<usize>
    requires ascending { IsAscending helds.now.items }
    requires rising { IsRising helds.now.items }
    requires marked { All (IsMarked marks.now.items) helds.now.items }
    ensures some { IfSome result (λ at. (at < length helds.now.items) × HoldsAt (λ h. is_at slot number h ≡ true) helds.now.items at) }
    ensures none { IfNone result (All (λ h. is_at slot number h ≡ false) helds.now.items) }
{
    let mark = mark_at(marks, slot);
    if number > mark.most {
        return None;
    }
    let at = first_waiting(helds, slot, below(helds, mark.passed));
    if at >= helds.len() {
        if mark.reached < number {
            return None;
        }
        return look_for(helds, slot, number);
    }
    let waiting = &helds[at];
    if waiting.number == number {
        return Some(at);
    }
    if mark.reached >= number {
        return look_for(helds, slot, number);
    }
    if number < waiting.number {
        return None;
    }
    look_for(helds, slot, number)
}

/// Passes the transfers of a slot that have answers.
pub(crate) fn pass(helds: &VecDeque<Held>, marks: &mut Vec<Mark>, slot: u32)
    requires ascending { IsAscending helds.now.items }
    requires marked { All (IsMarked marks.old.items) helds.now.items }
    ensures marked { All (IsMarked marks.new.items) helds.now.items }
    ensures slots { length marks.new.items ≡ length marks.old.items }
{
    let mark = mark_at(marks, slot);
    let at = first_waiting(helds, slot, below(helds, mark.passed));
    let passed = id_at(helds, at);
    put_mark(
        marks,
        slot,
        Mark {
            passed,
            reached: mark.reached,
            most: mark.most,
        },
    );
}

/// Gives a transfer its answer.
pub(crate) fn put_answer(helds: &mut VecDeque<Held>, at: usize, told: Told)
    requires { at < length helds.old.items }
    ensures { (h : Held) → helds.new.items ≡ slice_set helds.old.items at (with_told told (get_or helds.old.items at h)) }
{
    helds[at].answer = Some(told);
}
