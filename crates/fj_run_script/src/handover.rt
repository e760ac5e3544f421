// The statement at hand goes on; as it begins, its unit gets its number.
ghost use Rattle.std.specs.Prelude.{◌≡◌, ◌≢◌, ℕ, ◌+◌, ◌<◌, ◌^◌, List, length, slice_set, ◌∷◌, Some, Err, IfOk, OnOk, OnErr};
ghost use Rattle.fj_run_statements.specs.Fitting.{IsKept};
ghost use Rattle.fj_meaning.specs.Statement.{Stated};
ghost use Rattle.fj_statement.specs.Sound.{IsSound};
ghost use Rattle.fj_meaning_turns.specs.Run.{Run};
ghost use Rattle.fj_meaning_turns.specs.Turns.{turn};
ghost use Rattle.fj_run_units.specs.Files.{files_of};
ghost use Rattle.fj_run_units.specs.Having.{HaveFiles};
ghost use Rattle.fj_run_units.specs.Names.{AreInUse};
ghost use Rattle.fj_run_script.specs.Failing.{FailsCall};
ghost use Rattle.fj_run_script.specs.Fitting.{HasRoom};
ghost use Rattle.fj_run_script.specs.Going.{Counts, HaveAt, HaveTurned};
ghost use Rattle.fj_run_script.specs.Handing.{number_in_hand, put_in};
ghost use Rattle.fj_run_script.specs.Machine.{rest_of, run_of};
ghost use Rattle.fj_run_script.specs.Spending.{Spends, jobs_at};
ghost use Rattle.fj_run_script.specs.Stepping.{Steps};
ghost use Rattle.fj_run_script.specs.Turned.{IsTurn};

use crate::machine::Machine;
use crate::stage::Stage;
use crate::state::State;
use crate::turned::Turned;
use fj_outside::{Disk, FileStore, Sink};
use fj_run_items::Lost;
use fj_run_statements::number_due;
use fj_statement::{Lined, Statement, Statements};
use std::alloc::Global;

/// The number that the unit of a statement has: the one that is due as it begins, or the one that it has since then.
fn number_in_hand<F: FileStore>(
    state: &State<F>,
    since: Option<u32>,
    what: &Statement,
) -> Option<u32>
    ensures { result ≡ number_in_hand state.now since what.now }
{
    match state.stage {
        Stage::Start => Some(number_due(&state.core, what)),
        _ => since,
    }
}

/// Gives the unit of a statement its number, if it has one.
pub(crate) fn put_in(number: Option<u32>, what: &mut Statement)
    ensures { what.new ≡ put_in number what.old }
{
    if let Some(number) = number {
        what.put_number(number);
    }
}

/// Puts a statement back into its place.
pub(crate) fn put_back(statements: &mut Statements, place: usize, lined: Lined)
    requires { place < length statements.old }
    ensures { statements.new ≡ slice_set statements.old place lined }
{
    statements.replace(place, lined);
}

impl<F: FileStore> Machine<F> {
    /// Goes on with the statement at hand from its stage.
    pub(crate) fn turn<W: Sink, D: Disk<File = F>>(
        &mut self,
        alloc: Global,
        disk: &mut D,
        out: &mut W,
    ) -> Result<Turned<F>, Lost>
        requires names { D.tells disk.old → AreInUse self.old.state.core.names (D.held disk.old).in_use }
        requires at { self.old.at.place < length self.old.deck.statements }
        requires room { HasRoom self.old.state.sent.items }
        ensures turn { D.tells disk.old → (r : Run) (st : Stated) (more : List Stated) → run_of F.told F.bytes (files_of (D.held disk.old)) self.old ≡ Some r → rest_of self.old ≡ st ∷ more
            → IfOk result (λ t. IsTurn F.told F.bytes self.new.deck.variables (rest_of self.new) (files_of (D.held disk.new)) self.new.state t (turn st r.stage r)) }
        ensures steps { Steps W.tells W.taken W.count D.tells D.held D.count D.refusals out.old disk.old self.old.state.core result out.new disk.new self.new.state.core }
        ensures fits { IsSound self.old.deck → (st : Stated) (more : List Stated) → rest_of self.old ≡ st ∷ more → HaveAt self.old.state.stage self.old.state.core.names self.old.state.core.units st.0.what
            → (self.old.state.stage ≢ Stage.Start → self.old.state.core.next + 1 < 2 ^ 32) → IsKept self.old.state.core → result ≢ Err Lost.Unfit }
        ensures holds { IsKept self.old.state.core → OnOk result (IsKept self.new.state.core) }
        ensures files { (st : Stated) (more : List Stated) → rest_of self.old ≡ st ∷ more → HaveAt self.old.state.stage self.old.state.core.names self.old.state.core.units st.0.what
            → IfOk result (λ t. (x : Stated) × (rest_of self.new ≡ x ∷ more) × HaveTurned t self.new.state x.0.what) }
        ensures vain { (st : Stated) (more : List Stated) → rest_of self.old ≡ st ∷ more → HaveAt self.old.state.stage self.old.state.core.names self.old.state.core.units st.0.what
            → OnErr result (HaveFiles self.new.state.core.names self.new.state.core.units) }
        ensures counts { IfOk result (λ t. Counts t self.old.state self.new.state) }
        ensures spends { IfOk result (λ t. Spends (jobs_at self.old.state.stage (length self.old.state.core.units)) t self.new.state) }
        ensures heard { self.new.state.told ≡ self.old.state.told }
        ensures fails { D.tells disk.old → (r : Run) (st : Stated) (more : List Stated) → run_of F.told F.bytes (files_of (D.held disk.old)) self.old ≡ Some r → rest_of self.old ≡ st ∷ more
            → OnErr result (FailsCall (λ lost. result ≡ Err lost) (W.tells out.old) (W.taken out.old) (W.taken out.new) (D.held disk.new) (D.refusals disk.old) (D.refusals disk.new) r self.old self.new) }
        ensures starts { IfOk result (λ t. t ≡ Turned.Passes → self.new.state.stage ≡ Stage.Start) }
        ensures place { self.new.at.place ≡ self.old.at.place }
        ensures at { OnErr result (self.new.at ≡ self.old.at) }
        ensures deck { self.new.deck ≡ self.old.deck }
        ensures tally { self.new.tally ≡ self.old.tally }
        ensures kept { self.new.kept ≡ self.old.kept }
        ensures looks { self.new.looks ≡ self.old.looks }
    {
        let place = self.at.place;
        let none = Lined {
            line: 0,
            what: Statement::End,
        };
        let mut lined = self.deck.statements.replace(place, none);
        let held = lined.what.number_held();
        let number = number_in_hand(&self.state, self.at.number, &lined.what);
        put_in(number, &mut lined.what);
        let variables = &self.deck.variables;
        let turned = self.state.turn(alloc, variables, &lined, disk, out);
        lined.what.put_number(held);
        put_back(&mut self.deck.statements, place, lined);
        match turned {
            Ok(turned) => {
                self.at.number = number;
                Ok(turned)
            }
            Err(lost) => Err(lost),
        }
    }
}
