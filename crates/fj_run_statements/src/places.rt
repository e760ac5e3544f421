// The places that a pending transfer holds, each once.
ghost use Rattle.std.specs.Prelude.{◌≡◌, ◌+◌, ◌-◌, ◌<◌, ◌++◌, min, IfOk, OnOk};
ghost use Rattle.std.specs.List.Sorted.{IsNonDecreasingBy, IsPermutation};
ghost use Rattle.fj_value.specs.declared.place.Place.{Place};
ghost use Rattle.fj_store.specs.Places.{counted_from, is_among, places_in, places_of};
ghost use Rattle.fj_run_statements.specs.Places.{key_of, reached_at};

use fj_book::Places;
use fj_store::{Run, Runs};
use std::alloc::{AllocError, Global};

/// Runs in the order of their variables and, of one variable, of their first elements.
fn in_order(alloc: Global, runs: &[Run]) -> Result<Vec<Run>, AllocError>
    ensures same { IfOk result (λ ordered. IsPermutation runs.now ordered.items) }
    ensures ascending { IfOk result (λ ordered. IsNonDecreasingBy key_of ordered.items) }
{
    let mut ordered = Vec::new(alloc);
    for run in runs {
        ordered.push(*run)?;
    }
    ordered.sort_by_key(|run| u64::from(run.var) * 4294967296 + u64::from(run.first))?;
    Ok(ordered)
}

/// The end in front of which all elements of a run are there, by the variable of the run before it and the end there.
fn reached(run: Run, var: u32, end: u64) -> u64
    ensures { result ≡ reached_at var end run }
{
    if run.var == var { end } else { 0 }
}

/// How many of a run's elements stand in front of an end.
fn skipped(run: Run, end: u64) -> u32
    ensures count { result ≡ min (end - run.first) run.count }
    ensures first { run.first < 4294967296 }
{
    let passed = end.saturating_sub(u64::from(run.first));
    passed.min(u64::from(run.count)) as u32
}

/// Adds the places of a run but so many of the first.
fn add_rest(places: &mut Runs, run: Run, skipped: u32) -> Result<(), AllocError>
    ensures { OnOk result (places_in places.new ≡ places_in places.old ++ counted_from run.var (run.first + skipped) (run.count - skipped)) }
{
    if skipped >= run.count {
        return Ok(());
    }
    places.push(Run {
        var: run.var,
        first: run.first + skipped,
        count: run.count - skipped,
    })?;
    Ok(())
}

/// The places of one run.
fn places_of_one(alloc: Global, run: Run) -> Result<Places, AllocError>
    ensures { IfOk result (λ places. places ≡ places_of run) }
{
    let mut places = Runs::new(alloc);
    places.push(run)?;
    Ok(Places::of_runs(places))
}

/// The places of runs, each once. It looks at each run once.
pub(crate) fn distinct_places(alloc: Global, runs: &[Run]) -> Result<Places, AllocError>
    ensures { IfOk result (λ places. (p : Place) → is_among places p ≡ is_among (places_in runs.now) p) }
{
    if runs.len() == 1 {
        return places_of_one(alloc, runs[0]);
    }
    let ordered = in_order(alloc, runs)?;
    let mut places = Runs::new(alloc);
    let mut var = 0;
    let mut end = 0;
    for at in 0..ordered.len() {
        let run = ordered[at];
        let front = reached(run, var, end);
        let count = skipped(run, front);
        add_rest(&mut places, run, count)?;
        var = run.var;
        end = front.max(u64::from(run.first) + u64::from(run.count));
    }
    Ok(Places::of_runs(places))
}
