// What an INQUIRE statement looks for, and the looks at it.
ghost use Rattle.std.specs.Prelude.{◌≡◌, filter, map, Some};
ghost use Rattle.std.specs.List.{list_any};
ghost use Rattle.std.specs.Option.{option_map};
ghost use Rattle.fj_modes.specs.declared.asked.Wanted.{Wanted};
ghost use Rattle.fj_statement.specs.declared.deck.Variable.{Variable};
ghost use Rattle.fj_meaning.specs.Inquiring.{asks_pending};
ghost use Rattle.fj_meaning.specs.Needs.{unit_about};
ghost use Rattle.fj_meaning.specs.State.{Files};
ghost use Rattle.fj_meaning.specs.Statement.{Stated};
ghost use Rattle.fj_meaning_jobs.specs.Core.{unit_named};
ghost use Rattle.fj_meaning_looks.specs.Inquiring.{asked_transfers, asks_whether, is_asked, looks_for, question_of};
ghost use Rattle.fj_run_pending.specs.Plain.{pending_of};
ghost use Rattle.fj_run_statements.specs.State.{core_of};
ghost use Rattle.fj_run_script.specs.Asking.{inquired_of, with_first};

use crate::beginning::unit_asked;
use fj_modes::{Asked, Question};
use fj_run_items::number_given;
use fj_run_pending::{Held, check};
use fj_run_statements::Core;
use fj_run_units::Units;
use fj_statement::{Statement, Subject, Variables};
use std::collections::VecDeque;

/// What an INQUIRE statement looks for: whether the jobs of the slot of a unit are done, the last of which has this number.
#[derive(Clone, Copy, PartialEq, Eq)]
pub struct Inquired {
    pub unit: u32,
    pub slot: u32,
    pub last: u64,
}

/// A look: whether transfers of a unit were pending where so many jobs of its slot were done.
#[derive(Clone, Copy, PartialEq, Eq)]
pub struct Look {
    pub line: u32,
    pub unit: u32,
    pub pending: bool,
    pub done: u64,
}

/// Whether a question is PENDING=.
fn asks_pending(what: Question) -> bool
    ensures { result ≡ asks_pending what }
{
    match what {
        Question::Pending => true,
        _ => false,
    }
}

/// Whether one of the questions is PENDING=.
fn any_pending(asked: &Asked) -> bool
    ensures { result ≡ list_any (λ (w : Wanted). asks_pending w.what) asked.now }
{
    for wanted in asked.as_slice() {
        if asks_pending(wanted.what) {
            return true;
        }
    }
    false
}

/// Whether a statement asks PENDING=, and nobody has looked.
pub(crate) fn asks_whether(statement: &Statement) -> bool
    ensures { result ≡ asks_whether statement.now }
{
    match statement {
        Statement::Inquire {
            about: _,
            asked,
            id: _,
            iostat: _,
            done: None,
        } => any_pending(asked),
        _ => false,
    }
}

/// The number of the unit that is asked about, or that the file is connected to.
fn unit_about(units: &Units, about: &Subject) -> Option<u32>
    ensures { result ≡ unit_about (unit_named units.now) about.now }
{
    match about {
        Subject::Unit(unit) => unit.number(),
        Subject::File(name) => units.named(name),
    }
}

/// Whether a pending transfer is asked about: one of the unit, or that of ID=.
fn is_asked(held: &Held, unit: u32, id: Option<i64>) -> bool
    ensures { result ≡ is_asked (Some unit) id (pending_of held.now) }
{
    match id {
        None => held.unit == unit,
        Some(id) => held.unit == unit && i64::from(held.tag.0) == id,
    }
}

/// The same with one more transfer in front.
fn with_held(found: Option<Inquired>, held: &Held) -> Inquired
    ensures { inquired_of result ≡ with_first (pending_of held.now) (option_map inquired_of found) }
{
    let last = match found {
        Some(later) => held.number.max(later.last),
        None => held.number,
    };
    Inquired {
        unit: held.unit,
        slot: held.slot,
        last,
    }
}

/// The unit, the slot and the greatest number of those of these transfers that are asked about, if there are any.
fn asked_among(helds: &VecDeque<Held>, unit: u32, id: Option<i64>) -> Option<Inquired>
    ensures { option_map inquired_of result ≡ question_of (filter (is_asked (Some unit) id) (map pending_of helds.now.items)) }
{
    let mut found = None;
    let mut at = helds.len();
    while at > 0 {
        at -= 1;
        let held = &helds[at];
        if is_asked(held, unit, id) {
            found = Some(with_held(found, held));
        }
    }
    found
}

/// What a statement asks about among the transfers that are pending.
fn transfers_of(core: &Core, statement: &Statement) -> Option<Inquired>
    ensures { (files : Files) → option_map inquired_of result ≡ question_of (asked_transfers (core_of files core.now) statement.now) }
{
    match statement {
        Statement::Inquire {
            about,
            asked: _,
            id,
            iostat: _,
            done: _,
        } => match unit_about(&core.units, about) {
            Some(unit) => {
                let id = number_given(&core.store, id.as_ref());
                asked_among(core.pending.entries(), unit, id)
            }
            None => None,
        },
        _ => None,
    }
}

/// What a statement that has begun looks for. It takes no memory.
pub(crate) fn look_for(
    variables: &Variables,
    core: &Core,
    statement: &Statement,
) -> Option<Inquired>
    ensures { (files : Files) (st : Stated) → st.0.what ≡ statement.now → option_map inquired_of result ≡ looks_for variables.now st (core_of files core.now) }
{
    if !asks_whether(statement) {
        return None;
    }
    let named = unit_asked(&core.units, statement);
    let broken = check(
        variables.as_slice(),
        &core.store,
        &core.pending,
        named,
        statement,
    );
    match broken {
        None => transfers_of(core, statement),
        Some(_) => None,
    }
}
