// A runner that has not begun.
ghost use Rattle.std.specs.Prelude.{◌≡◌, ◌≤◌, ◌*◌, ◌-◌, ◌^◌, [], length, vec_capacity, min, map, replicate, false, Some, None, IfOk};
ghost use Rattle.fj_run_items.specs.Kinds.{kinds_of};
ghost use Rattle.fj_meaning_jobs.specs.Desking.{fresh};
ghost use Rattle.fj_run_statements.specs.State.{core_of};
ghost use Rattle.fj_meaning.specs.State.{Files};
ghost use Rattle.fj_meaning.specs.Statement.{stated};
ghost use Rattle.fj_meaning_turns.specs.Serving.{first_run};
ghost use Rattle.fj_run_script.specs.Machine.{run_of};
ghost use Rattle.fj_run_script.specs.Making.{shape_of};
ghost use Rattle.fj_run_script.specs.Room.{looks_left};
ghost use Rattle.fj_run_script.specs.declared.hand.Hand.TheVariants.{Idle};
ghost use Rattle.fj_statement.specs.Sound.{IsSound};
ghost use Rattle.fj_run_script.specs.Going.{IsGoing};

use crate::hand::Hand;
use crate::looking::{Look, asks_whether};
use crate::machine::{AtHand, Machine};
use crate::stage::Stage;
use crate::state::State;
use crate::tally::Tally;
use fj_outside::FileStore;
use fj_run_items::Output;
use fj_run_pending::Pendings;
use fj_run_statements::Core;
use fj_run_units::{Names, Units};
use fj_statement::{Deck, FIRST_NEW_UNIT, Lined, Variable};
use fj_store::Store;
use fj_value::{Items, Kind};
use std::alloc::{AllocError, Global};

/// How many slots there are.
const MOST_SLOTS: usize = 16;

/// The shapes of variables.
fn shapes(alloc: Global, variables: &[Variable]) -> Result<Vec<(Kind, u32)>, AllocError>
    ensures { IfOk result (λ shapes. shapes.items ≡ map shape_of variables.now) }
{
    let mut shapes = Vec::new(alloc);
    for at in 0..variables.len() {
        let variable = &variables[at];
        let count = if variable.count == 0 {
            1
        } else {
            variable.count
        };
        shapes.push((variable.kind, count))?;
    }
    Ok(shapes)
}

/// What a deck with these variables begins with.
fn first_core(alloc: Global, variables: &[Variable]) -> Result<Core, AllocError>
    ensures core { IfOk result (λ core. (files : Files) → core_of files core ≡ (fresh variables.now files).core) }
    ensures kinds { IfOk result (λ core. core.store.kinds ≡ kinds_of variables.now) }
    ensures pending { IfOk result (λ core. core.pending ≡ []) }
    ensures names { IfOk result (λ core. core.names ≡ []) }
{
    let shapes = shapes(alloc, variables)?;
    Ok(Core {
        store: Store::new(alloc, &shapes)?,
        pending: Pendings::new(alloc, &shapes)?,
        units: Units::new(alloc),
        output: Output::new(alloc),
        next: 1,
        new_unit: FIRST_NEW_UNIT,
        tells: Items::new(alloc),
        names: Names::new(alloc),
    })
}

/// So many asks may come at most of so many statements: 64 of each; a number that no run reaches, where there are very many.
fn most_asks(statements: usize) -> u64
    ensures { result ≡ min (64 * statements) (2 ^ 62 - 1) }
{
    (statements as u64).saturating_mul(64).min((1 << 62) - 1)
}

/// Nothing was asked.
fn first_tally(alloc: Global, statements: usize) -> Result<Tally, AllocError>
    ensures { IfOk result (λ tally. (tally.hand ≡ Idle) × (tally.over ≡ false) × (tally.stopped ≡ false) × (tally.lost ≡ None)
        × (tally.left ≡ min (64 * statements) (2 ^ 62 - 1)) × (tally.owed.items ≡ replicate 16 0)) }
{
    Ok(Tally {
        hand: Hand::Idle,
        left: most_asks(statements),
        owed: vec![in alloc; 0; MOST_SLOTS]?,
        over: false,
        stopped: false,
        lost: None,
    })
}

/// How many statements may look.
fn looks_left(statements: &[Lined]) -> usize
    ensures { result ≡ looks_left statements.now }
{
    let mut count = 0;
    for lined in statements {
        if asks_whether(&lined.what) {
            count += 1;
        }
    }
    count
}

/// No look, and room for so many.
fn first_looks(alloc: Global, most: usize) -> Result<Vec<Look>, AllocError>
    ensures { IfOk result (λ looks. (looks.items ≡ []) × (most ≤ vec_capacity looks)) }
{
    let mut looks = Vec::new(alloc);
    looks.reserve(most)?;
    Ok(looks)
}

impl<F: FileStore> Machine<F> {
    /// A runner of the deck that has not begun.
    pub fn new(alloc: Global, deck: Deck) -> Result<Machine<F>, AllocError>
        ensures run { IfOk result (λ m. (files : Files) → run_of F.told F.bytes files m ≡ Some (first_run deck.variables (stated deck.statements) files)) }
        ensures tally { IfOk result (λ m. (m.tally.hand ≡ Idle) × (m.tally.over ≡ false) × (m.tally.stopped ≡ false) × (m.tally.lost ≡ None)
            × (m.tally.left ≡ min (64 * length deck.statements) (2 ^ 62 - 1)) × (m.tally.owed.items ≡ replicate 16 0)) }
        ensures names { IfOk result (λ m. m.state.core.names ≡ []) }
        ensures deck { IfOk result (λ m. m.deck ≡ deck) }
        ensures kept { IfOk result (λ m. m.kept ≡ None) }
        ensures looks { IfOk result (λ m. m.looks.items ≡ []) }
        ensures on { IsSound deck → IfOk result IsGoing }
    {
        let core = first_core(alloc, deck.variables.as_slice())?;
        let tally = first_tally(alloc, deck.statements.len())?;
        let looks = first_looks(alloc, looks_left(deck.statements.as_slice()))?;
        Ok(Machine {
            deck,
            state: State {
                core,
                sent: vec![in alloc; 0; MOST_SLOTS]?,
                told: vec![in alloc; 0; MOST_SLOTS]?,
                stage: Stage::Start,
                due: 0,
                ending: None,
            },
            at: AtHand {
                place: 0,
                number: None,
            },
            tally,
            kept: None,
            looks,
        })
    }
}
