// The book: the pending transfers in ascending order of their identifiers.
ghost use Rattle.std.specs.Prelude.{◌≡◌, ◌<◌, ◌≤◌, ◌≢◌, ◌^◌, not, List, [], ◌∷◌, ◌++◌, ℕ, length, filter, find, map, replicate, remove, take, drop, All, HoldsAt, pos, ◌<ℤ◌, MatchOption, IfOk, IfSome, IfNone, OnOk, OnErr};
ghost use Rattle.std.specs.List.Sorted.{IsPartitionPoint};
ghost use Rattle.std.specs.List.{list_any};
ghost use Rattle.std.specs.Option.{option_map};
ghost use Rattle.fj_store.specs.Places.{places_of};
ghost use Rattle.fj_store.specs.Storage.{values_of};
ghost use Rattle.fj_store.specs.Variables.{value_at, is_undefined};
ghost use Rattle.fj_book.specs.declared.pending.Pending.{Pending};
ghost use Rattle.fj_book.specs.Counting.{AreCounted, IsKept};
ghost use Rattle.fj_book.specs.Entries.{holders, has_tag, is_of_unit, is_of, is_told, tag_of, IsAscending};
ghost use Rattle.fj_book.specs.Prohibitions.{prohibited, is_read, is_held, names_pending};

use crate::counts::{Counts, any_held};
use crate::need::Needs;
use crate::pending::Pending;
use crate::place_test::RunTest;
use fj_store::{Run, Store};
use fj_value::{Kind, Rule, Tag};
use std::alloc::{AllocError, Global};
use std::collections::VecDeque;
use std::marker::Model;

/// The pending transfers, seen as their list.
#[derive(Drop)]
pub struct Book {
    entries: VecDeque<Pending>,
    inputs: Counts,
    outputs: Counts,
}

impl Model for Book {
    ghost use Rattle.std.specs.Prelude.{List};
    ghost use Rattle.fj_book.specs.declared.pending.Pending.{Pending};
    ghost use Rattle.fj_book.specs.Counting.{IsKept};

    ghost Value = { List Pending };

    ghost view = { λ book. book.entries.items };

    ghost invariant = { λ book. IsKept book.entries.items book.inputs book.outputs };
}

/// The value of ID= as a number, where it is not below 0.
fn number_of(id: i64) -> Option<u64>
    ensures { MatchOption result (id <ℤ pos 0) (λ n. id ≡ pos n) }
{
    if id < 0 {
        return None;
    }
    Some(id.unsigned_abs())
}

/// Where the transfer of an identifier stands.
fn place_of(entries: &VecDeque<Pending>, id: u64) -> Option<usize>
    requires { IsAscending entries.now.items }
    ensures some { IfSome result (λ at. (at < length entries.now.items) × HoldsAt (λ e. tag_of e ≡ id) entries.now.items at) }
    ensures none { IfNone result (All (λ e. tag_of e ≢ id) entries.now.items) }
{
    let at = entries.partition_point(|entry| (entry.tag.0 as u64) < id);
    if at >= entries.len() {
        return None;
    }
    if u64::from(entries[at].tag.0) != id {
        return None;
    }
    Some(at)
}

/// How many of the first transfers have lower identifiers than this one.
fn below(entries: &VecDeque<Pending>, id: u64) -> usize
    requires { IsAscending entries.now.items }
    ensures bound { result ≤ length entries.now.items }
    ensures parted { IsPartitionPoint (λ e. tag_of e < id) (λ e. id ≤ tag_of e) entries.now.items result }
{
    let at = entries.partition_point(|entry| (entry.tag.0 as u64) < id);
    at
}

/// Whether a transfer is of the unit, or of any where none is named.
fn is_of(unit: Option<u32>, entry: &Pending) -> bool
    ensures { result ≡ is_of unit entry.now }
{
    match unit {
        None => true,
        Some(unit) => entry.unit == unit,
    }
}

/// What makes a number that wraps one less.
const ONE_LESS: u64 = 18446744073709551615;

/// Counts a transfer more.
fn count_in(
    entries: &VecDeque<Pending>,
    inputs: &mut Counts,
    outputs: &mut Counts,
    pending: &Pending,
)
    requires { IsKept entries.now.items inputs.old outputs.old }
    ensures { IsAscending (entries.now.items ++ pending.now ∷ []) → IsKept (entries.now.items ++ pending.now ∷ []) inputs.new outputs.new }
{
    if pending.input {
        inputs.add_all(&pending.places, 1);
    } else {
        outputs.add_all(&pending.places, 1);
    }
}

/// Counts a transfer no more.
fn count_out(inputs: &mut Counts, outputs: &mut Counts, pending: &Pending)
    ensures { (entries : List Pending) (at : ℕ) → at < length entries → length entries < 2 ^ 64 → HoldsAt (λ e. e ≡ pending.now) entries at → AreCounted entries inputs.old outputs.old → AreCounted (remove entries at) inputs.new outputs.new }
{
    if pending.input {
        inputs.add_all(&pending.places, ONE_LESS);
    } else {
        outputs.add_all(&pending.places, ONE_LESS);
    }
}

/// Counts a transfer no more that is let go.
fn count_off(inputs: &mut Counts, outputs: &mut Counts, pending: Pending)
    ensures { (entries : List Pending) (at : ℕ) → at < length entries → length entries < 2 ^ 64 → HoldsAt (λ e. e ≡ pending) entries at → AreCounted entries inputs.old outputs.old → AreCounted (remove entries at) inputs.new outputs.new }
{
    count_out(inputs, outputs, &pending);
}

/// Goes over so many of the first transfers. Those of the unit are taken off, and the others go behind all that are left.
fn sift(
    entries: &mut VecDeque<Pending>,
    inputs: &mut Counts,
    outputs: &mut Counts,
    unit: Option<u32>,
    count: usize,
)
    requires { count ≤ length entries.old.items }
    ensures left { entries.new.items ≡ drop count entries.old.items ++ filter (λ e. not (is_of unit e)) (take count entries.old.items) }
    ensures counted { AreCounted entries.old.items inputs.old outputs.old → AreCounted entries.new.items inputs.new outputs.new }
{
    for _ in 0..count {
        let Some(entry) = entries.pop_front() else {
            return;
        };
        if is_of(unit, &entry) {
            count_off(inputs, outputs, entry);
        } else {
            entries.push_back_reserved(entry);
        }
    }
}

/// The first transfer of a unit.
fn first_in(entries: &VecDeque<Pending>, unit: u32) -> Option<Tag>
    ensures { result ≡ option_map (λ e. e.tag) (find (is_of_unit unit) entries.now.items) }
{
    for at in 0..entries.len() {
        let entry = &entries[at];
        if entry.unit == unit {
            return Some(entry.tag);
        }
    }
    None
}

impl Book {
    /// No transfer, for variables of these kinds with so many elements.
    pub fn new(alloc: Global, variables: &[(Kind, u32)]) -> Result<Book, AllocError>
        ensures { IfOk result (λ book. book ≡ []) }
    {
        let inputs = Counts::new(alloc, variables)?;
        let outputs = Counts::new(alloc, variables)?;
        Ok(Book {
            entries: VecDeque::new(alloc),
            inputs,
            outputs,
        })
    }

    /// All transfers, in ascending order of their identifiers.
    pub fn entries(&self) -> &VecDeque<Pending>
        ensures entries { result.now.items ≡ self.now }
        ensures ascending { IsAscending self.now }
    {
        let _ = &self.inputs;
        &self.entries
    }

    /// The least identifier of the transfers of a unit.
    pub fn first_of(&self, unit: u32) -> Option<Tag>
        ensures { result ≡ option_map (λ e. e.tag) (find (is_of_unit unit) self.now) }
    {
        first_in(&self.entries, unit)
    }

    /// Whether a place of a run is one of a pending input.
    fn reads(&self, run: Run) -> bool
        ensures { result ≡ list_any (is_read (holders self.now)) (places_of run) }
    {
        any_held(&self.inputs, &self.entries, true, run)
    }

    /// Whether a place of a run is one of a pending transfer.
    fn holds(&self, run: Run) -> bool
        ensures { result ≡ list_any (is_held (holders self.now)) (places_of run) }
    {
        any_held(&self.inputs, &self.entries, true, run)
            || any_held(&self.outputs, &self.entries, false, run)
    }

    /// Whether ID= names a transfer that is pending on the unit.
    fn names_pending(&self, unit: Option<u32>, id: Option<i64>) -> bool
        ensures { result ≡ names_pending (holders self.now) unit id }
    {
        let Some(id) = id else {
            return true;
        };
        let Some(unit) = unit else {
            return false;
        };
        let Some(number) = number_of(id) else {
            return false;
        };
        let Some(at) = place_of(&self.entries, number) else {
            return false;
        };
        self.entries[at].unit == unit
    }

    /// Whether a statement references a place of a pending input.
    fn is_read<N: Needs>(&self, need: &N) -> bool
        ensures { result ≡ list_any (is_read (holders self.now)) (N.need need.now).references }
    {
        !self.entries.is_empty() && need.any_referenced(&Reads { book: self })
    }

    /// Whether a statement defines a place of a pending transfer.
    fn is_held<N: Needs>(&self, need: &N) -> bool
        ensures { result ≡ list_any (is_held (holders self.now)) (N.need need.now).defines }
    {
        !self.entries.is_empty() && need.any_defined(&Holds { book: self })
    }

    /// The lowest rule that a statement breaks. It takes no memory.
    pub fn check<N: Needs>(&self, store: &Store, need: &N) -> Option<Rule>
        ensures { result ≡ prohibited (values_of store.now) (holders self.now) (N.need need.now) }
    {
        if self.is_read(need) {
            return Some(Rule::P1);
        }
        if self.is_held(need) {
            return Some(Rule::P2);
        }
        if need.any_referenced(&IsUndefined { store }) {
            return Some(Rule::P3);
        }
        if !self.names_pending(need.unit(), need.id()) {
            return Some(Rule::P4);
        }
        if need.defines_twice() {
            return Some(Rule::P5);
        }
        None
    }

    /// Enters a transfer with a greater identifier than all others have. Want of memory changes nothing.
    pub fn enter(&mut self, pending: Pending) -> Result<(), AllocError>
        requires { All (λ e. tag_of e < tag_of pending) self.old }
        ensures ok { OnOk result (self.new ≡ self.old ++ pending ∷ []) }
        ensures err { OnErr result (self.new ≡ self.old) }
    {
        self.entries.reserve(1)?;
        count_in(&self.entries, &mut self.inputs, &mut self.outputs, &pending);
        self.entries.push_back_reserved(pending);
        Ok(())
    }

    /// Takes the transfer of an identifier off; none where no such transfer is pending. It takes no memory.
    pub fn tell(&mut self, tag: Tag) -> Option<Pending>
        ensures told { result ≡ find (has_tag tag.0) self.old }
        ensures left { self.new ≡ filter (λ e. not (has_tag tag.0 e)) self.old }
    {
        let at = place_of(&self.entries, u64::from(tag.0))?;
        let pending = self.entries.remove(at)?;
        count_out(&mut self.inputs, &mut self.outputs, &pending);
        Some(pending)
    }

    /// Takes the transfers off that have this identifier or a greater one and are of the unit, or of any where none is named. It goes
    /// once over the transfers that have such identifiers, and takes no memory.
    pub fn tell_from(&mut self, unit: Option<u32>, first: Tag)
        ensures { self.new ≡ filter (λ e. not (is_told unit first.0 e)) self.old }
    {
        let at = below(&self.entries, u64::from(first.0));
        let count = self.entries.len() - at;
        self.entries.rotate_left(at);
        sift(
            &mut self.entries,
            &mut self.inputs,
            &mut self.outputs,
            unit,
            count,
        );
    }
}

/// Is it a place of a pending input?
#[derive(Clone, Copy)]
struct Reads<'a> {
    book: &'a Book,
}

impl<'a> RunTest for Reads<'a> {
    ghost passes = { λ reads place. is_read (holders reads.book.now) place };

    fn test(&self, run: Run) -> bool {
        self.book.reads(run)
    }
}

/// Is it a place of a pending transfer?
#[derive(Clone, Copy)]
struct Holds<'a> {
    book: &'a Book,
}

impl<'a> RunTest for Holds<'a> {
    ghost passes = { λ holds place. is_held (holders holds.book.now) place };

    fn test(&self, run: Run) -> bool {
        self.book.holds(run)
    }
}

/// Is it undefined?
#[derive(Clone, Copy)]
struct IsUndefined<'a> {
    store: &'a Store,
}

impl<'a> RunTest for IsUndefined<'a> {
    ghost passes = { λ test place. is_undefined (value_at (values_of test.store.now) place) };

    fn test(&self, run: Run) -> bool {
        self.store.has_undefined(run)
    }
}
