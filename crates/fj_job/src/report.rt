// The report of a run: the trace, how the deck ended, and its variables.
ghost use Rattle.std.specs.Prelude.{◌≡◌, ◌≤◌, ◌<◌, ◌++◌, length, min, max, IfOk, OnOk, unwrap_or};
ghost use Rattle.std.specs.List.{flat_map};
ghost use Rattle.std.specs.Option.{option_copied};
ghost use Rattle.fj_store.specs.Storage.{values_of};
ghost use Rattle.fj_store.specs.Variables.{value_at};
ghost use Rattle.fj_report.specs.Lines.{status_text, check_text, summary_text};
ghost use Rattle.fj_meaning.specs.State.{elements};
ghost use Rattle.fj_run_pending.specs.Plain.{tells_of};
ghost use Rattle.fj_run_script.specs.Machine.{ending_of};
ghost use Rattle.fj_job.specs.Reply.{status_of, told_line, lines_of, shown_at, place_line, place_lines, variable_lines};
ghost use Rattle.fj_job.specs.Concluding.{run_text};

use crate::middle::Middle;
use fj_report::{
    Status, Summary, check_line, status_line, summary_line, trace_line, variable_line,
};
use fj_run_pending::Tell;
use fj_run_script::Ending;
use fj_run_statements::Core;
use fj_statement::{Variable, unit_number};
use fj_store::Store;
use fj_value::{Place, Tag, Text, Value};
use std::alloc::{AllocError, Global};

/// The answer of a deck that ended.
pub fn status_of(ending: Ending) -> Status
    ensures { result ≡ status_of (ending_of ending) }
{
    match ending {
        Ending::Ended => Status::Ended,
        Ending::ErrorStop { line, code } => Status::ErrorStop { stmt: line, code },
        Ending::Prohibited { line, rule } => Status::Prohibited { stmt: line, rule },
    }
}

/// The line of an answer.
pub fn status_report(alloc: Global, status: Status) -> Result<Text, AllocError>
    ensures { IfOk result (λ text. text ≡ status_text status) }
{
    let mut text = Text::new(alloc);
    status_line(&status, &mut text)?;
    Ok(text)
}

/// The line of a deck of so many statements that was read.
pub fn check_report(alloc: Global, count: usize) -> Result<Text, AllocError>
    ensures { IfOk result (λ text. text ≡ check_text count) }
{
    let mut text = Text::new(alloc);
    check_line(count, &mut text)?;
    Ok(text)
}

/// The line of the summary of a deck that was made.
pub fn summary_report(alloc: Global, summary: &Summary) -> Result<Text, AllocError>
    ensures { IfOk result (λ text. text ≡ summary_text summary.now) }
{
    let mut text = Text::new(alloc);
    summary_line(summary, &mut text)?;
    Ok(text)
}

/// Adds the lines of transfers that were told.
fn push_tells(text: &mut Text, tells: &[Tell]) -> Result<(), AllocError>
    ensures { OnOk result (text.new ≡ text.old ++ flat_map told_line (tells_of tells.now)) }
{
    'adding: for tell in tells {
        let code = tell.condition.code();
        trace_line(tell.line, unit_number(tell.unit), Tag(tell.id), code, text)?;
    }
    Ok(())
}

/// Adds the lines in the middle.
fn push_middle(text: &mut Text, middle: Middle<'_>, tells: &[Tell]) -> Result<(), AllocError>
    ensures { OnOk result (text.new ≡ text.old ++ lines_of middle.entry (tells_of tells.now)) }
{
    match middle {
        Middle::Nothing => Ok(()),
        Middle::Trace => push_tells(text, tells),
        Middle::Given(lines) => text.push_all(lines),
    }
}

/// Adds the line of a place.
fn push_place(
    text: &mut Text,
    store: &Store,
    variable: &Variable,
    place: Place,
) -> Result<(), AllocError>
    ensures { OnOk result (text.new ≡ text.old ++ place_line (values_of store.now) variable.now place) }
{
    let undefined = Value::Undefined;
    let value = match store.read(place) {
        Some(value) => value,
        None => &undefined,
    };
    let index = variable.count.min(place.index);
    variable_line(variable.name.bytes(), index, Some(value), text)
}

fn elements(variable: &Variable) -> u32
    ensures { result ≡ elements variable.now }
{
    if variable.count == 0 {
        1
    } else {
        variable.count
    }
}

/// Adds the lines of the places of a variable.
fn push_places(
    text: &mut Text,
    store: &Store,
    variable: &Variable,
    var: u32,
) -> Result<(), AllocError>
    ensures { OnOk result (text.new ≡ text.old ++ place_lines (values_of store.now) variable.now var 1 (elements variable.now)) }
{
    let mut left = u64::from(elements(variable));
    let mut index: u64 = 1;
    'adding: while left > 0 {
        let place = Place {
            var,
            index: index as u32,
        };
        push_place(text, store, variable, place)?;
        index += 1;
        left -= 1;
    }
    Ok(())
}

/// Adds the lines of the variables.
fn push_variables(text: &mut Text, store: &Store, variables: &[Variable]) -> Result<(), AllocError>
    requires { length variables.now ≤ 4096 }
    ensures { OnOk result (text.new ≡ text.old ++ variable_lines variables.now (values_of store.now)) }
{
    let mut at = 0;
    'adding: while at < variables.len() {
        push_places(text, store, &variables[at], at as u32)?;
        at += 1;
    }
    Ok(())
}

/// The lines of a run behind its output: those in the middle, how the deck ended, and its variables.
pub fn run_report(
    alloc: Global,
    variables: &[Variable],
    middle: Middle<'_>,
    ending: Ending,
    core: &Core,
) -> Result<Text, AllocError>
    requires { length variables.now ≤ 4096 }
    ensures { IfOk result (λ text. text ≡ run_text variables.now (lines_of middle.entry) (ending_of ending) core.now) }
{
    let mut text = Text::new(alloc);
    push_middle(&mut text, middle, core.tells.as_slice())?;
    status_line(&status_of(ending), &mut text)?;
    push_variables(&mut text, &core.store, variables)?;
    Ok(text)
}

/// The lines of a run that a fault of the disk cut at a line.
pub fn fault_report(
    alloc: Global,
    middle: Middle<'_>,
    line: u32,
    core: &Core,
) -> Result<Text, AllocError>
    ensures { IfOk result (λ text. text ≡ lines_of middle.entry (tells_of core.now.tells) ++ status_text (Status.DiskFault line)) }
{
    let mut text = Text::new(alloc);
    push_middle(&mut text, middle, core.tells.as_slice())?;
    status_line(&Status::DiskFault { stmt: line }, &mut text)?;
    Ok(text)
}
