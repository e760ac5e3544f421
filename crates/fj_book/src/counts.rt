// How many pending transfers of one direction hold each place.
ghost use Rattle.std.specs.Prelude.{◌≡◌, ◌+◌, ◌≤◌, ◌<◌, ◌%◌, ◌^◌, ◌&&◌, nat_le, nat_lt, if◌then◌else◌, ℕ, Bool, Some, replicate, map, IfSome, IfOk};
ghost use Rattle.std.specs.List.{list_any};
ghost use Rattle.std.specs.Option.{option_map};
ghost use Rattle.fj_value.specs.declared.place.Place.{Place};
ghost use Rattle.fj_store.specs.Places.{is_among, places_of};
ghost use Rattle.fj_store.specs.Tables.{element_at};
ghost use Rattle.fj_book.specs.Counting.{holds_in, IsCounted};

use crate::pending::{Pending, Places};
use crate::row::Row;
use fj_store::Run;
use fj_value::Kind;
use std::alloc::{AllocError, Global};
use std::collections::VecDeque;
use std::marker::Model;

/// By variable, how many hold each of its places.
#[derive(Drop)]
pub(crate) struct Counts {
    rows: Vec<Row>,
}

impl Model for Counts {
    ghost use Rattle.std.specs.Prelude.{ℕ, List};

    ghost Value = { List (List ℕ) };

    ghost view = { λ counts. counts.rows.items };
}

/// Where the places of a run begin and end in a row of so many, as far as they are there.
fn within(run: Run, count: usize) -> (usize, usize)
    ensures order { result.0 ≤ result.1 }
    ensures low { result.1 ≤ count }
    ensures places { (at : ℕ) → at < count → (nat_le result.0 at && nat_lt at result.1) ≡ (nat_le run.first (at + 1) && nat_lt (at + 1) (run.first + run.count)) }
{
    let from = (run.first as usize).saturating_sub(1);
    let to = (run.first as usize + run.count as usize).saturating_sub(1);
    let to = to.min(count);
    (from.min(to), to)
}

impl Counts {
    /// For variables with so many elements, where nothing is held.
    pub(crate) fn new(alloc: Global, variables: &[(Kind, u32)]) -> Result<Counts, AllocError>
        ensures { IfOk result (λ counts. counts ≡ map (λ v. replicate v.1 0) variables.now) }
    {
        let mut rows = Vec::new(alloc);
        for (_, count) in variables {
            rows.push(Row::new(alloc, *count)?)?;
        }
        Ok(Counts { rows })
    }

    /// Adds to the number of each place of a run. They wrap.
    fn add(&mut self, run: Run, by: u64)
        ensures { (p : Place) → element_at self.new p
            ≡ (if is_among (places_of run) p then option_map (λ n. (n + by) % 2 ^ 64) (element_at self.old p) else element_at self.old p) }
    {
        let var = run.var as usize;
        if var >= self.rows.len() {
            return;
        }
        let (from, to) = within(run, self.rows[var].len());
        self.rows[var].add(from, to, by);
    }

    /// Whether a place of a run is held, if the table has all of them.
    fn any(&self, run: Run) -> Option<bool>
        ensures { IfSome result (λ b. (holds : Place → Bool) → ((p : Place) (n : ℕ) → element_at self.now p ≡ Some n → holds p ≡ nat_lt 0 n) → b ≡ list_any holds (places_of run)) }
    {
        let from = run.first.checked_sub(1)? as usize;
        let var = run.var as usize;
        if var >= self.rows.len() {
            return None;
        }
        let to = from + run.count as usize;
        if to > self.rows[var].len() {
            return None;
        }
        Some(self.rows[var].any(from, to))
    }

    /// Adds to the numbers of places, each once. They wrap.
    pub(crate) fn add_all(&mut self, places: &Places, by: u64)
        ensures { (p : Place) → element_at self.new p
            ≡ (if is_among places.now p then option_map (λ n. (n + by) % 2 ^ 64) (element_at self.old p) else element_at self.old p) }
    {
        for run in places.runs() {
            self.add(*run, by);
        }
    }
}

/// Whether a transfer goes in this direction and holds a place of a run.
fn holds_one(entry: &Pending, input: bool, run: Run) -> bool
    ensures { result ≡ list_any (λ place. holds_in input place entry.now) (places_of run) }
{
    if entry.input == input {
        entry.places.meet(run)
    } else {
        false
    }
}

/// Whether a transfer of this direction holds a place of a run, by looking at each.
fn some_hold(entries: &VecDeque<Pending>, input: bool, run: Run) -> bool
    ensures { result ≡ list_any (λ place. list_any (holds_in input place) entries.now.items) (places_of run) }
{
    for at in 0..entries.len() {
        if holds_one(&entries[at], input, run) {
            return true;
        }
    }
    false
}

/// Whether a transfer of this direction holds a place of a run. Where the table does not have all of them, the transfers are looked at.
pub(crate) fn any_held(counts: &Counts, entries: &VecDeque<Pending>, input: bool, run: Run) -> bool
    requires { IsCounted input counts.now entries.now.items }
    ensures { result ≡ list_any (λ place. list_any (holds_in input place) entries.now.items) (places_of run) }
{
    match counts.any(run) {
        Some(any) => any,
        None => some_hold(entries, input, run),
    }
}
