// The pending transfers of a run, in ascending order of their identifiers.
ghost use Rattle.std.specs.Prelude.{◌≡◌, ◌≢◌, ◌<◌, false, ◌++◌, List, [], ◌∷◌, not, All, length, map, filter, take, Some, Err, IsTrue, is_ok, IfOk, IfSome, IfErr, OnOk, OnErr};
ghost use Rattle.std.specs.Option.{option_map};
ghost use Rattle.std.specs.List.{find, list_any};
ghost use Rattle.fj_value.specs.declared.place.Place.{Place};
ghost use Rattle.fj_statement.specs.declared.deck.Variable.{Variable};
ghost use Rattle.fj_store.specs.Places.{is_among, places_in};
ghost use Rattle.fj_store.specs.Storage.{values_of};
ghost use Rattle.fj_book.specs.Prohibitions.{prohibited};
ghost use Rattle.fj_meaning.specs.Statement.{has_pending};
ghost use Rattle.fj_meaning.specs.Telling.{condition_of, tells_id, tells_cause, with_inputs};
ghost use Rattle.fj_meaning.specs.Telling as telling;
ghost use Rattle.fj_meaning_jobs.specs.Desks.{most_slots};
ghost use Rattle.fj_meaning_turns.specs.Turns.{is_at, unsettled, with_answer};
ghost use Rattle.fj_run_pending.specs.Plain.{held, entries, holders, brought_of, tells_of};
ghost use Rattle.fj_run_pending.specs.Busy.{AreBusy};
ghost use Rattle.fj_run_pending.specs.Fitting.{IsNext};
ghost use Rattle.fj_run_pending.specs.Taking.{LeavesSome};
ghost use Rattle.fj_run_pending.specs.Tied.{IsAscending, IsMarked, entered_marks, answered_marks};
ghost use Rattle.fj_run_pending.specs.Waits.{waited_of, IsPassed, is_due, is_cause};

use crate::answers::{below, mark_at, pass, put_answer, put_mark, seek};
use crate::busy::{Busy, add_transfer, first_of, first_of_unit, forget};
use crate::deliver::deliver;
use crate::held::{Held, Told};
use crate::lost::Lost;
use crate::mark::Mark;
use crate::pick::{Pick, causes, has_id, picked, place_of};
use crate::removal::{leave, take_picked};
use crate::tell::Tell;
use crate::whose::Whose;
use fj_book::{Book, Needs, Pending, Places};
use fj_store::Store;
use fj_value::{Condition, Items, Kind, Rule};
use std::alloc::{AllocError, Global};
use std::collections::VecDeque;
use std::marker::Model;

/// The most slots.
const MOST_SLOTS: usize = 16;

/// The pending transfers with the answers that their jobs had, seen as their list.
#[derive(Drop)]
pub struct Pendings {
    helds: VecDeque<Held>,
    /// The same transfers, as prohibitions see them.
    book: Book,
    /// By slot.
    marks: Vec<Mark>,
    /// The units that may have transfers, with their lowest identifiers.
    busy: Vec<Busy>,
}

impl Model for Pendings {
    ghost use Rattle.std.specs.Prelude.{List};
    ghost use Rattle.fj_run_pending.specs.declared.held.Held.{Held};

    ghost Value = { List Held };

    ghost use Rattle.fj_run_pending.specs.Tied.{IsTied};

    ghost view = { λ p. p.helds.items };

    ghost invariant = { λ p. IsTied p.helds.items p.book p.marks.items p.busy.items };
}

/// The slot of the first transfer that is waited for and has no answer, where none stands before the place, and where it stands.
fn next_due(helds: &VecDeque<Held>, pick: Pick, from: usize) -> Option<(usize, u32)>
    ensures slot { find (is_due pick) (take from helds.now.items) ≡ None → option_map (λ r. r.1) result ≡ option_map (λ h. h.slot) (find (is_due pick) helds.now.items) }
    ensures passed { find (is_due pick) (take from helds.now.items) ≡ None → IfSome result (λ r. find (is_due pick) (take r.0 helds.now.items) ≡ None) }
{
    for at in from..helds.len() {
        let held = &helds[at];
        if pick.awaits(held) {
            return Some((at, held.slot));
        }
    }
    None
}

/// The same of the transfers of a unit, without a look where it can have none, or before its lowest identifier.
fn unit_due(
    helds: &VecDeque<Held>,
    busy: &Vec<Busy>,
    unit: u32,
    from: usize,
) -> Option<(usize, u32)>
    requires ascending { IsAscending helds.now.items }
    requires busy { AreBusy busy.now.items helds.now.items }
    ensures slot { find (is_due (Pick.OfUnit unit)) (take from helds.now.items) ≡ None → option_map (λ r. r.1) result ≡ option_map (λ h. h.slot) (find (is_due (Pick.OfUnit unit)) helds.now.items) }
    ensures passed { find (is_due (Pick.OfUnit unit)) (take from helds.now.items) ≡ None → IfSome result (λ r. find (is_due (Pick.OfUnit unit)) (take r.0 helds.now.items) ≡ None) }
{
    let Some(first) = first_of(busy, unit) else {
        return None;
    };
    let start = below(helds, u64::from(first.0));
    next_due(helds, Pick::OfUnit(unit), start.max(from))
}

/// The slot of the transfer of an identifier, where it has no answer.
fn one_due(helds: &VecDeque<Held>, id: u32) -> Option<(usize, u32)>
    requires { IsAscending helds.now.items }
    ensures slot { option_map (λ r. r.1) result ≡ option_map (λ h. h.slot) (find (is_due (Pick.One id)) helds.now.items) }
    ensures first { IfSome result (λ r. r.0 ≡ 0) }
{
    let Some(at) = place_of(helds, u64::from(id)) else {
        return None;
    };
    let held = &helds[at];
    if held.answer.is_some() {
        return None;
    }
    Some((0, held.slot))
}

/// The slot of the first transfer without an answer among those that are waited for, and a place from which to look on.
fn unsettled_in(
    helds: &VecDeque<Held>,
    busy: &Vec<Busy>,
    whose: Whose,
    from: usize,
) -> Option<(usize, u32)>
    requires ascending { IsAscending helds.now.items }
    requires busy { AreBusy busy.now.items helds.now.items }
    ensures slot { IsPassed whose (held helds.now.items) from → option_map (λ r. r.1) result ≡ unsettled (waited_of whose (entries helds.now.items)) (held helds.now.items) }
    ensures passed { IsPassed whose (held helds.now.items) from → IfSome result (λ r. IsPassed whose (held helds.now.items) r.0) }
{
    match picked(helds, whose) {
        Pick::None => None,
        Pick::OfUnit(unit) => unit_due(helds, busy, unit, from),
        Pick::One(id) => one_due(helds, id),
        Pick::All => next_due(helds, Pick::All, from),
    }
}

/// Whether the transfer of an identifier is of the unit and halted it.
fn one_causes(helds: &VecDeque<Held>, id: u32, unit: u32) -> bool
    requires { IsAscending helds.now.items }
    ensures { result ≡ list_any (is_cause (Pick.One id) unit) helds.now.items }
{
    match place_of(helds, u64::from(id)) {
        Some(at) => causes(Pick::One(id), unit, &helds[at]),
        None => false,
    }
}

/// Whether one that is waited for halted the unit, by looking at each from a place on, where none before it did.
fn any_causes(helds: &VecDeque<Held>, pick: Pick, unit: u32, from: usize) -> bool
    requires { list_any (is_cause pick unit) (take from helds.now.items) ≡ false }
    ensures { result ≡ list_any (is_cause pick unit) helds.now.items }
{
    for at in from..helds.len() {
        if causes(pick, unit, &helds[at]) {
            return true;
        }
    }
    false
}

/// Whether one that is waited for halted the unit: transfers of other units are not looked at where those of one are waited for, nor
/// any where the unit can have none, or before its lowest identifier.
fn ends_in(helds: &VecDeque<Held>, busy: &Vec<Busy>, pick: Pick, unit: u32) -> bool
    requires ascending { IsAscending helds.now.items }
    requires busy { AreBusy busy.now.items helds.now.items }
    ensures { result ≡ list_any (is_cause pick unit) helds.now.items }
{
    match pick {
        Pick::None => return false,
        Pick::OfUnit(told) => {
            if told != unit {
                return false;
            }
        }
        Pick::One(id) => return one_causes(helds, id, unit),
        Pick::All => {}
    }
    let Some(first) = first_of(busy, unit) else {
        return false;
    };
    any_causes(helds, pick, unit, below(helds, u64::from(first.0)))
}

/// Whether those of a slot have jobs of lower numbers, by looking at each.
fn are_lower(helds: &VecDeque<Held>, slot: u32, number: u64) -> bool
    ensures lower { IsTrue result → All (λ h. h.slot ≡ slot → h.number < number) helds.now.items }
    ensures only { All (λ h. h.slot ≡ slot → h.number < number) helds.now.items → IsTrue result }
{
    for at in 0..helds.len() {
        let held = &helds[at];
        if held.slot == slot && held.number >= number {
            return false;
        }
    }
    true
}

/// Whether a transfer comes behind all others. Each is looked at where its number is not above those that its slot had.
fn is_next(helds: &VecDeque<Held>, marks: &Vec<Mark>, entered: &Held) -> bool
    requires ascending { IsAscending helds.now.items }
    requires slots { length marks.now.items ≡ most_slots }
    requires marked { All (IsMarked marks.now.items) helds.now.items }
    ensures next { IsTrue result → IsNext helds.now.items entered.now }
    ensures only { IsNext helds.now.items entered.now → IsTrue result }
{
    if entered.slot as usize >= marks.len() {
        return false;
    }
    let most = mark_at(marks, entered.slot).most;
    if entered.number <= most && !are_lower(helds, entered.slot, entered.number) {
        return false;
    }
    match helds.back() {
        Some(last) => last.tag.0 < entered.tag.0,
        None => true,
    }
}

/// One more at its slot.
fn mark_entered(marks: &mut Vec<Mark>, entered: &Held)
    ensures { marks.new.items ≡ entered_marks marks.old.items entered.now }
{
    let mark = mark_at(marks, entered.slot);
    let passed = mark.passed.min(u64::from(entered.tag.0));
    put_mark(
        marks,
        entered.slot,
        Mark {
            passed,
            reached: mark.reached,
            most: mark.most.max(entered.number),
        },
    );
}

/// The numbers of a slot that have answers go so far.
fn mark_answered(marks: &mut Vec<Mark>, slot: u32, number: u64)
    ensures { marks.new.items ≡ answered_marks marks.old.items slot number }
{
    let mark = mark_at(marks, slot);
    let reached = mark.reached.max(number);
    put_mark(
        marks,
        slot,
        Mark {
            passed: mark.passed,
            reached,
            most: mark.most,
        },
    );
}

impl Pendings {
    /// No transfer, for variables of these kinds with so many elements.
    pub fn new(alloc: Global, kinds: &[(Kind, u32)]) -> Result<Pendings, AllocError>
        ensures { IfOk result (λ pendings. pendings ≡ []) }
    {
        let book = Book::new(alloc, kinds)?;
        let none = Mark {
            passed: 0,
            reached: 0,
            most: 0,
        };
        let marks = vec![in alloc; none; MOST_SLOTS]?;
        Ok(Pendings {
            helds: VecDeque::new(alloc),
            book,
            marks,
            busy: Vec::new(alloc),
        })
    }

    /// All of them, in ascending order of their identifiers.
    pub fn entries(&self) -> &VecDeque<Held>
        ensures entries { result.now.items ≡ self.now }
        ensures ascending { IsAscending self.now }
    {
        let _ = &self.book;
        &self.helds
    }

    /// Enters a transfer, which has no answer yet, with its places each once. It is refused where its identifier is not greater than
    /// those of the pending ones, or the number of its job than those of its slot, or its slot is not below 16. Where it is not entered
    /// nothing changes.
    pub fn enter(&mut self, entered: Held, places: Places) -> Result<(), Lost>
        requires unanswered { entered.answer ≡ None }
        requires same { (p : Place) → is_among places p ≡ is_among (places_in entered.runs) p }
        ensures ok { OnOk result (self.new ≡ self.old ++ entered ∷ []) }
        ensures err { OnErr result (self.new ≡ self.old) }
        ensures fits { IsNext self.old entered → result ≢ Err Lost.Unfit }
    {
        if !is_next(&self.helds, &self.marks, &entered) {
            return Err(Lost::Unfit);
        }
        self.helds.reserve(1)?;
        self.busy.reserve(1)?;
        self.book.enter(Pending {
            tag: entered.tag,
            unit: entered.unit,
            input: entered.input,
            places,
            number: entered.number,
        })?;
        mark_entered(&mut self.marks, &entered);
        add_transfer(&mut self.busy, entered.unit, entered.tag);
        self.helds.push_back_reserved(entered);
        Ok(())
    }

    /// Gives the transfer whose job has the number at the slot its answer. Where no transfer has it, what was told comes back. It
    /// takes no memory.
    pub fn answer(&mut self, slot: u32, number: u64, told: Told) -> Result<(), Told>
        ensures answered { held self.new ≡ with_answer slot number (brought_of told) (held self.old) }
        ensures found { is_ok result ≡ list_any (λ h. is_at slot number h.pending) (held self.old) }
        ensures none { OnErr result (self.new ≡ self.old) }
        ensures back { IfErr result (λ it. it ≡ told) }
    {
        let Some(at) = seek(&self.helds, &self.marks, slot, number) else {
            return Err(told);
        };
        pass(&self.helds, &mut self.marks, slot);
        put_answer(&mut self.helds, at, told);
        mark_answered(&mut self.marks, slot, number);
        Ok(())
    }

    /// Whether the job of a transfer has the number at the slot.
    pub fn has(&self, slot: u32, number: u64) -> bool
        ensures { result ≡ list_any (λ h. is_at slot number h.pending) (held self.now) }
    {
        seek(&self.helds, &self.marks, slot, number).is_some()
    }

    /// Whether a transfer is pending on the unit, or the one of that identifier. It looks at a logarithm of them, and takes no memory.
    pub fn has_pending(&self, unit: u32, id: Option<i64>) -> bool
        ensures { result ≡ has_pending (holders self.now) (Some unit) id }
    {
        match id {
            None => first_of_unit(&self.helds, &self.busy, unit).is_some(),
            Some(id) => has_id(&self.helds, unit, id),
        }
    }

    /// The slot of the first transfer without an answer among those that are waited for, and a place behind which all such stand, from
    /// which to look on after its answer; none where all have answers. No such transfer may stand before the place `from`.
    pub fn next_unsettled(&self, whose: Whose, from: usize) -> Option<(usize, u32)>
        ensures slot { IsPassed whose (held self.now) from → option_map (λ r. r.1) result ≡ unsettled (waited_of whose (entries self.now)) (held self.now) }
        ensures passed { IsPassed whose (held self.now) from → IfSome result (λ r. IsPassed whose (held self.now) r.0) }
    {
        unsettled_in(&self.helds, &self.busy, whose, from)
    }

    /// Whether telling the transfers that are waited for ends the halt of a unit.
    pub fn ends_halt(&self, whose: Whose, unit: u32) -> bool
        ensures { result ≡ tells_cause (waited_of whose (entries self.now)) unit }
    {
        let pick = picked(&self.helds, whose);
        ends_in(&self.helds, &self.busy, pick, unit)
    }

    /// Tells the transfers that are waited for, at a line: items and SIZE= of inputs become defined, the transfers are pending no
    /// more, and the condition that they have together is answered. A value that its variable's kind has not leaves that undefined.
    /// Where memory is wanted, nothing is said of the variables, and of the transfers that some are left.
    pub fn tell(
        &mut self,
        alloc: Global,
        whose: Whose,
        line: u32,
        store: &mut Store,
        tells: &mut Items<Tell>,
    ) -> Result<Condition, AllocError>
        ensures condition { IfOk result (λ condition. condition ≡ condition_of (waited_of whose (entries self.old))) }
        ensures values { (variables : List Variable) → store.old.kinds ≡ map (λ v. v.kind) variables → OnOk result (values_of store.new ≡ with_inputs variables (waited_of whose (entries self.old)) (values_of store.old)) }
        ensures kinds { store.new.kinds ≡ store.old.kinds }
        ensures left { OnOk result (held self.new ≡ filter (λ h. not (tells_id (waited_of whose (entries self.old)) h.pending.id)) (held self.old)) }
        ensures tells { OnOk result (tells_of tells.new ≡ tells_of tells.old ++ map (telling.tell_of line) (waited_of whose (entries self.old))) }
        ensures some { LeavesSome self.old self.new }
    {
        let pick = picked(&self.helds, whose);
        self.busy.reserve(1)?;
        let told = take_picked(alloc, &mut self.helds, &self.busy, pick)?;
        leave(&mut self.book, &self.busy, pick);
        forget(&self.helds, &mut self.busy, pick, &told);
        deliver(told, line, store, tells)
    }

    /// The lowest rule that a statement breaks. It takes no memory.
    pub(crate) fn rule_for<N: Needs>(&self, store: &Store, need: &N) -> Option<Rule>
        ensures { result ≡ prohibited (values_of store.now) (holders self.now) (N.need need.now) }
    {
        self.book.check(store, need)
    }
}
