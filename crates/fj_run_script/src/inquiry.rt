// The statement at hand that looks.
ghost use Rattle.std.specs.Prelude.{◌≡◌, ◌<◌, false, length, IsSome, Some, slice_get};
ghost use Rattle.std.specs.Option.{option_map, option_map_or};
ghost use Rattle.fj_statement.specs.Units.{number_due, unit_of};
ghost use Rattle.fj_statement.specs.declared.deck.Lined.{Lined as PlainLined};
ghost use Rattle.fj_store.specs.Storage.{values_of};
ghost use Rattle.fj_store.specs.Variables.{value_at};
ghost use Rattle.fj_meaning.specs.State.{Files};
ghost use Rattle.fj_meaning.specs.Statement.{Stated};
ghost use Rattle.fj_meaning_turns.specs.Run.{Start};
ghost use Rattle.fj_meaning_looks.specs.Inquiring.{asks_whether, look_due, looks_by, looks_for, question_at};
ghost use Rattle.fj_run_statements.specs.State.{core_of};
ghost use Rattle.fj_run_script.specs.Going.{IsGoing};
ghost use Rattle.fj_run_script.specs.Asking.{inquired_of};
ghost use Rattle.fj_run_script.specs.Looking.{HasLooked, question_in};
ghost use Rattle.fj_run_script.specs.Machine.{rest_of, run_at};

use crate::handover::{put_back, put_in};
use crate::looking::{Inquired, Look, asks_whether, look_for};
use crate::machine::Machine;
use crate::stage::Stage;
use crate::state::State;
use fj_outside::FileStore;
use fj_run_statements::number_due;
use fj_statement::{Lined, Statement, Variables};

/// What stands in the place of a statement that is taken out.
fn no_statement() -> Lined {
    Lined {
        line: 0,
        what: Statement::End,
    }
}

/// The number that is due of the unit of a statement.
fn due_in<F: FileStore>(state: &State<F>, what: &Statement) -> u32
    ensures { result ≡ option_map_or (number_due (value_at (values_of state.now.core.store)) state.now.core.new_unit) (unit_of what.now) 0 }
{
    number_due(&state.core, what)
}

/// What a statement that has begun looks for.
fn look_in<F: FileStore>(
    variables: &Variables,
    state: &State<F>,
    what: &Statement,
) -> Option<Inquired>
    ensures { (files : Files) (st : Stated) → st.0.what ≡ what.now → option_map inquired_of result ≡ looks_for variables.now st (core_of files state.now.core) }
{
    look_for(variables, &state.core, what)
}

impl<F: FileStore> Machine<F> {
    /// Whether the statement at hand asks PENDING=, and nobody has looked.
    fn may_look(&self) -> bool
        ensures { result ≡ option_map_or (λ (l : PlainLined). asks_whether l.what) (slice_get self.now.deck.statements self.now.at.place) false }
    {
        match self.deck.statements.get(self.at.place) {
            Some(lined) => asks_whether(&lined.what),
            None => false,
        }
    }

    /// What the statement at hand looks for as it begins.
    fn look_at_hand(&mut self) -> Option<Inquired>
        requires { self.old.at.place < length self.old.deck.statements }
        ensures question { (files : Files) → option_map inquired_of result ≡ question_at (rest_of self.old) (run_at files self.old Start) }
        ensures same { self.new ≡ self.old }
    {
        if !self.may_look() {
            return None;
        }
        let place = self.at.place;
        let none = no_statement();
        let mut lined = self.deck.statements.replace(place, none);
        let held = lined.what.number_held();
        let number = due_in(&self.state, &lined.what);
        put_in(Some(number), &mut lined.what);
        let found = look_in(&self.deck.variables, &self.state, &lined.what);
        lined.what.put_number(held);
        put_back(&mut self.deck.statements, place, lined);
        found
    }

    /// Whether it stops at the statement at hand.
    pub(crate) fn stops_here(&mut self, to_look: bool) -> bool
        requires { self.old.at.place < length self.old.deck.statements }
        ensures stops { (files : Files) → result ≡ look_due (looks_by to_look) (rest_of self.old) (run_at files self.old Start) }
        ensures same { self.new ≡ self.old }
    {
        if !to_look {
            return false;
        }
        self.look_at_hand().is_some()
    }

    /// What it looks for, where it stands at a look. It takes no memory.
    pub fn inquired(&mut self) -> Option<Inquired>
        ensures question { (files : Files) → option_map inquired_of result ≡ question_in files self.old }
        ensures inside { IsSome result → self.old.at.place < length self.old.deck.statements }
        ensures same { self.new ≡ self.old }
    {
        if self.tally.over {
            return None;
        }
        if self.state.ending.is_some() {
            return None;
        }
        if self.at.place >= self.deck.statements.len() {
            return None;
        }
        match self.state.stage {
            Stage::Start => self.look_at_hand(),
            _ => None,
        }
    }

    /// The statement at hand gets to know whether what it looks for is done, where so many jobs of the slot are, and the look is kept.
    fn keep_look(&mut self, asked: Inquired, done: u64)
        requires question { (files : Files) → question_in files self.old ≡ Some (inquired_of asked) }
        requires inside { self.old.at.place < length self.old.deck.statements }
        ensures looks { HasLooked F.told F.bytes done self.old self.new }
        ensures on { IsGoing self.old → IsGoing self.new }
    {
        let place = self.at.place;
        let is_done = asked.last < done;
        let none = no_statement();
        let mut lined = self.deck.statements.replace(place, none);
        let line = lined.line;
        lined.what.put_done(asked.unit, is_done);
        put_back(&mut self.deck.statements, place, lined);
        self.at.number = None;
        self.looks.push_reserved(Look {
            line,
            unit: asked.unit,
            pending: !is_done,
            done,
        });
    }

    /// At a look: so many jobs of the slot are done that it looks for. The statement at hand gets to know it, and the look is kept. It
    /// takes no memory.
    pub fn looked(&mut self, done: u64)
        requires { (files : Files) → IsSome (question_in files self.old) }
        ensures looks { HasLooked F.told F.bytes done self.old self.new }
        ensures on { IsGoing self.old → IsGoing self.new }
    {
        let Some(asked) = self.inquired() else {
            unreachable!();
        };
        self.keep_look(asked, done);
    }
}
