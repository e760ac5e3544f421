// What a deck asks next.
ghost use Rattle.std.specs.Prelude.{◌≡◌, ◌≢◌, ℕ, ◌+◌, ◌<◌, Bool, false, length, Some, Err, IfOk, OnErr, IfSome, IfNone, drop};
ghost use Rattle.fj_meaning.specs.State.{Files};
ghost use Rattle.fj_meaning.specs.Statement.{Stated, stated};
ghost use Rattle.fj_statement.specs.Sound.{IsSound};
ghost use Rattle.fj_meaning_turns.specs.Run.{Run, Start};
ghost use Rattle.fj_meaning_turns.specs.Turns.{Turn};
ghost use Rattle.fj_meaning_turns.specs.Passing.{passed_by, passed_on};
ghost use Rattle.fj_meaning_looks.specs.Inquiring.{look_due, looks_by};
ghost use Rattle.fj_meaning_looks.specs.Looking.{asked_until, goes_until, turn_until};
ghost use Rattle.fj_run_units.specs.Names.{AreInUse};
ghost use Rattle.fj_run_units.specs.Files.{files_of};
ghost use Rattle.fj_world.specs.Giving.{GivesOf};
ghost use Rattle.fj_run_script.specs.Kept.{Follows, MayKeep};
ghost use Rattle.fj_run_script.specs.Machine.{behind, rest_of, run_at, run_of};
ghost use Rattle.fj_run_script.specs.Turned.{IsTurn, IsAsked};
ghost use Rattle.fj_run_script.specs.Stepping.{Steps};
ghost use Rattle.fj_run_script.specs.Failing.{FailsCall};
ghost use Rattle.fj_run_script.specs.Short.{IsShort};
ghost use Rattle.fj_run_script.specs.Fitting.{HasRoom};
ghost use Rattle.fj_run_script.specs.Spending.{Lives, Spends, Spent, jobs_from, jobs_left};
ghost use Rattle.fj_run_script.specs.Going.{DoesNotPause, FromTurn, IsAt, KeepsToSlots, SentFor, SinceTurn};

use crate::machine::{AtHand, Machine};
use crate::stage::{Stage, put_start};
use crate::turned::Turned;
use fj_bay::Job;
use fj_outside::{Disk, FileStore, Sink};
use fj_run_items::Lost;
use fj_world::Ask;
use std::alloc::Global;

impl<F: FileStore> Machine<F> {
    /// What a turn asks; none where the next statement is at hand.
    fn asked_by(&mut self, turned: Turned<F>) -> Option<Ask<Job<F>>>
        requires at { self.old.at.place < length self.old.deck.statements }
        requires starts { turned ≡ Turned.Passes → self.old.state.stage ≡ Stage.Start }
        ensures asks { (looks : Stated → Run → Bool) (files : Files) (t : Turn) → IsTurn F.told F.bytes self.old.deck.variables (rest_of self.old) files self.old.state turned t
            → IfSome result (λ ask. IsAsked F.told F.bytes files self.new ask (turn_until looks (drop (self.old.at.place + 1) (stated self.old.deck.statements)) t)) }
        ensures passes { (looks : Stated → Run → Bool) (files : Files) (t : Turn) → IsTurn F.told F.bytes self.old.deck.variables (rest_of self.old) files self.old.state turned t
            → IfNone result ((self.new.state.stage ≡ Stage.Start) × (turn_until looks (drop (self.old.at.place + 1) (stated self.old.deck.statements)) t
            ≡ goes_until looks (rest_of self.new) (run_at files self.new Start))) }
        ensures passed { (files : Files) (t : Turn) → IsTurn F.told F.bytes self.old.deck.variables (rest_of self.old) files self.old.state turned t
            → IfNone result (passed_by (drop (self.old.at.place + 1) (stated self.old.deck.statements)) t ≡ Some (run_at files self.new Start)) }
        ensures at { IfNone result (self.new.at ≡ behind self.old.at) }
        ensures deck { self.new.deck ≡ self.old.deck }
        ensures on { FromTurn self.old turned (IsAt self.new) }
        ensures gives { FromTurn self.old turned (IfSome result (GivesOf MayKeep self.new)) }
        ensures behind { IfNone result (DoesNotPause turned) }
        ensures started { IfNone result (self.new.state.stage ≡ Stage.Start) }
        ensures start { FromTurn self.old turned (IfNone result (self.new.state.stage ≡ Stage.Start)) }
        ensures still { SinceTurn self.old turned (λ s. IfNone result (self.new.state.sent ≡ s.sent)) }
        ensures sent { SinceTurn self.old turned (λ s. IfSome result (λ ask. SentFor ask s.sent.items self.new.state.sent.items)) }
        ensures slots { SinceTurn self.old turned (λ s. IfSome result (λ ask. KeepsToSlots ask self.new.state)) }
        ensures spends { (jobs : ℕ) → Spends jobs turned self.old.state
            → SinceTurn self.old turned (λ s. IfSome result (λ ask. Spent ask (jobs + jobs_from (length self.old.deck.statements) (self.old.at.place + 1)) self.new)) }
        ensures state { self.new.state ≡ self.old.state }
        ensures tally { self.new.tally ≡ self.old.tally }
        ensures kept { self.new.kept ≡ self.old.kept }
        ensures looks { self.new.looks ≡ self.old.looks }
    {
        match turned {
            Turned::Pauses(ask) => Some(ask),
            Turned::Passes => {
                let _count = self.deck.statements.len();
                self.at = AtHand {
                    place: self.at.place + 1,
                    number: None,
                };
                None
            }
            Turned::Stops => Some(Ask::Finished),
        }
    }

    /// Begins the statement at hand.
    fn begin_next<W: Sink, D: Disk<File = F>>(
        &mut self,
        alloc: Global,
        disk: &mut D,
        out: &mut W,
    ) -> Result<Option<Ask<Job<F>>>, Lost>
        requires names { D.tells disk.old → AreInUse self.old.state.core.names (D.held disk.old).in_use }
        requires at { self.old.at.place < length self.old.deck.statements }
        requires room { HasRoom self.old.state.sent.items }
        ensures asks { (looks : Stated → Run → Bool) → D.tells disk.old → look_due looks (rest_of self.old) (run_at (files_of (D.held disk.old)) self.old Start) ≡ false
            → IfOk result (λ o. IfSome o (λ ask. IsAsked F.told F.bytes (files_of (D.held disk.new)) self.new ask
            (goes_until looks (rest_of self.old) (run_at (files_of (D.held disk.old)) self.old Start)))) }
        ensures passes { (looks : Stated → Run → Bool) → D.tells disk.old → look_due looks (rest_of self.old) (run_at (files_of (D.held disk.old)) self.old Start) ≡ false
            → IfOk result (λ o. IfNone o ((self.new.state.stage ≡ Stage.Start)
            × (goes_until looks (rest_of self.old) (run_at (files_of (D.held disk.old)) self.old Start) ≡ goes_until looks (rest_of self.new) (run_at (files_of (D.held disk.new)) self.new Start)))) }
        ensures passed { D.tells disk.old → IfOk result (λ o. IfNone o (passed_on (rest_of self.old) (run_at (files_of (D.held disk.old)) self.old Start)
            ≡ Some (run_at (files_of (D.held disk.new)) self.new Start))) }
        ensures fails { D.tells disk.old → OnErr result (FailsCall (λ lost. result ≡ Err lost) (W.tells out.old) (W.taken out.old) (W.taken out.new)
            (D.held disk.new) (D.refusals disk.old) (D.refusals disk.new)
            (run_at (files_of (D.held disk.old)) self.old Start) self.old self.new) }
        ensures at { IfOk result (λ o. IfNone o (self.new.at.place ≡ self.old.at.place + 1)) }
        ensures still_at { OnErr result (self.new.at.place ≡ self.old.at.place) }
        ensures started { IfOk result (λ o. IfNone o (self.new.state.stage ≡ Stage.Start)) }
        ensures follows { self.old.state.stage ≡ Stage.Start → IsAt self.old → Follows (λ o. IfSome o (GivesOf MayKeep self.new) × IfNone o (self.new.state.stage ≡ Stage.Start))
            (IsSound self.old.deck) result self.new }
        ensures sent { IfOk result (λ o. IfSome o (λ ask. SentFor ask self.old.state.sent.items self.new.state.sent.items)) }
        ensures slots { IfOk result (λ o. IfSome o (λ ask. KeepsToSlots ask self.new.state)) }
        ensures still { IfOk result (λ o. IfNone o (self.new.state.sent ≡ self.old.state.sent)) }
        ensures spends { IfOk result (λ o. IfSome o (λ ask. Spent ask (jobs_from (length self.old.deck.statements) self.old.at.place) self.new)) }
        ensures heard { self.new.state.told ≡ self.old.state.told }
        ensures steps { Steps W.tells W.taken W.count D.tells D.held D.count D.refusals out.old disk.old self.old.state.core result out.new disk.new self.new.state.core }
        ensures deck { self.new.deck ≡ self.old.deck }
        ensures tally { self.new.tally ≡ self.old.tally }
        ensures kept { self.new.kept ≡ self.old.kept }
        ensures looks { self.new.looks ≡ self.old.looks }
    {
        put_start(&mut self.state.stage);
        match self.turn(alloc, disk, out) {
            Ok(turned) => Ok(self.asked_by(turned)),
            Err(lost) => Err(lost),
        }
    }

    /// Carries out statements from the one at hand on until one asks, or one looks, where it is to look.
    fn go<W: Sink, D: Disk<File = F>>(
        &mut self,
        to_look: bool,
        alloc: Global,
        disk: &mut D,
        out: &mut W,
    ) -> Result<Ask<Job<F>>, Lost>
        requires names { D.tells disk.old → AreInUse self.old.state.core.names (D.held disk.old).in_use }
        requires start { self.old.state.stage ≡ Stage.Start }
        requires room { HasRoom self.old.state.sent.items }
        ensures asks { D.tells disk.old → self.old.state.stage ≡ Stage.Start → IfOk result (λ ask. IsAsked F.told F.bytes (files_of (D.held disk.new)) self.new ask
            (goes_until (looks_by to_look) (rest_of self.old) (run_at (files_of (D.held disk.old)) self.old Start))) }
        ensures follows { self.old.state.stage ≡ Stage.Start → IsAt self.old → Follows (GivesOf MayKeep self.new) (IsSound self.old.deck) result self.new }
        ensures spends { IfOk result (λ ask. Spent ask (jobs_from (length self.old.deck.statements) self.old.at.place) self.new) }
        ensures sent { IfOk result (λ ask. SentFor ask self.old.state.sent.items self.new.state.sent.items) }
        ensures slots { IfOk result (λ ask. KeepsToSlots ask self.new.state) }
        ensures heard { self.new.state.told ≡ self.old.state.told }
        ensures steps { Steps W.tells W.taken W.count D.tells D.held D.count D.refusals out.old disk.old self.old.state.core result out.new disk.new self.new.state.core }
        ensures fails { D.tells disk.old → OnErr result (FailsCall (λ lost. result ≡ Err lost) (W.tells out.old) (W.taken out.old) (W.taken out.new)
            (D.held disk.new) (D.refusals disk.old) (D.refusals disk.new)
            (run_at (files_of (D.held disk.old)) self.old Start) self.old self.new) }
        ensures short { D.tells disk.old → OnErr result (IsShort (looks_by to_look)
            (goes_until (looks_by to_look) (rest_of self.old) (run_at (files_of (D.held disk.old)) self.old Start)) (rest_of self.new)) }
        ensures deck { self.new.deck ≡ self.old.deck }
        ensures tally { self.new.tally ≡ self.old.tally }
        ensures kept { self.new.kept ≡ self.old.kept }
        ensures looks { self.new.looks ≡ self.old.looks }
    {
        while self.at.place < self.deck.statements.len() {
            if self.stops_here(to_look) {
                return Ok(Ask::Finished);
            }
            let asked = match self.begin_next(alloc, disk, out) {
                Ok(asked) => asked,
                Err(lost) => return Err(lost),
            };
            if let Some(ask) = asked {
                return Ok(ask);
            }
        }
        Ok(Ask::Finished)
    }

    /// What a turn comes to: its ask, or that of the statements behind it.
    fn ask_or_go<W: Sink, D: Disk<File = F>>(
        &mut self,
        to_look: bool,
        turned: Turned<F>,
        alloc: Global,
        disk: &mut D,
        out: &mut W,
    ) -> Result<Ask<Job<F>>, Lost>
        requires names { D.tells disk.old → AreInUse self.old.state.core.names (D.held disk.old).in_use }
        requires at { self.old.at.place < length self.old.deck.statements }
        requires starts { turned ≡ Turned.Passes → self.old.state.stage ≡ Stage.Start }
        requires room { DoesNotPause turned → HasRoom self.old.state.sent.items }
        ensures asks { D.tells disk.old → (t : Turn) → IsTurn F.told F.bytes self.old.deck.variables (rest_of self.old) (files_of (D.held disk.old)) self.old.state turned t
            → IfOk result (λ ask. IsAsked F.told F.bytes (files_of (D.held disk.new)) self.new ask (turn_until (looks_by to_look) (drop (self.old.at.place + 1) (stated self.old.deck.statements)) t)) }
        ensures follows { FromTurn self.old turned (Follows (GivesOf MayKeep self.new) (IsSound self.old.deck) result self.new) }
        ensures spends { (jobs : ℕ) → Spends jobs turned self.old.state
            → SinceTurn self.old turned (λ s. IfOk result (λ ask. Spent ask (jobs + jobs_from (length self.old.deck.statements) (self.old.at.place + 1)) self.new)) }
        ensures sent { SinceTurn self.old turned (λ s. IfOk result (λ ask. SentFor ask s.sent.items self.new.state.sent.items)) }
        ensures slots { SinceTurn self.old turned (λ s. IfOk result (λ ask. KeepsToSlots ask self.new.state)) }
        ensures heard { self.new.state.told ≡ self.old.state.told }
        ensures steps { Steps W.tells W.taken W.count D.tells D.held D.count D.refusals out.old disk.old self.old.state.core result out.new disk.new self.new.state.core }
        ensures fails { D.tells disk.old → (t : Turn) → IsTurn F.told F.bytes self.old.deck.variables (rest_of self.old) (files_of (D.held disk.old)) self.old.state turned t
            → OnErr result ((r : Run) × (passed_by (drop (self.old.at.place + 1) (stated self.old.deck.statements)) t ≡ Some r)
            × FailsCall (λ lost. result ≡ Err lost) (W.tells out.old) (W.taken out.old) (W.taken out.new) (D.held disk.new) (D.refusals disk.old) (D.refusals disk.new) r self.old self.new) }
        ensures short { D.tells disk.old → (t : Turn) → IsTurn F.told F.bytes self.old.deck.variables (rest_of self.old) (files_of (D.held disk.old)) self.old.state turned t
            → OnErr result (IsShort (looks_by to_look) (turn_until (looks_by to_look) (drop (self.old.at.place + 1) (stated self.old.deck.statements)) t) (rest_of self.new)) }
        ensures deck { self.new.deck ≡ self.old.deck }
        ensures tally { self.new.tally ≡ self.old.tally }
        ensures kept { self.new.kept ≡ self.old.kept }
        ensures looks { self.new.looks ≡ self.old.looks }
    {
        match self.asked_by(turned) {
            Some(ask) => Ok(ask),
            None => self.go(to_look, alloc, disk, out),
        }
    }

    /// What the deck asks next; where it is to look, it finishes at a statement that looks.
    pub(crate) fn next_ask<W: Sink, D: Disk<File = F>>(
        &mut self,
        to_look: bool,
        alloc: Global,
        disk: &mut D,
        out: &mut W,
    ) -> Result<Ask<Job<F>>, Lost>
        requires names { D.tells disk.old → AreInUse self.old.state.core.names (D.held disk.old).in_use }
        requires room { HasRoom self.old.state.sent.items }
        ensures asks { D.tells disk.old → (r : Run) → run_of F.told F.bytes (files_of (D.held disk.old)) self.old ≡ Some r
            → IfOk result (λ ask. IsAsked F.told F.bytes (files_of (D.held disk.new)) self.new ask (asked_until (looks_by to_look) r)) }
        ensures follows { IsAt self.old → Follows (GivesOf MayKeep self.new) (IsSound self.old.deck) result self.new }
        ensures spends { IfOk result (λ ask. Spent ask (jobs_left self.old) self.new × Lives ask self.old self.new) }
        ensures sent { IfOk result (λ ask. SentFor ask self.old.state.sent.items self.new.state.sent.items) }
        ensures slots { IfOk result (λ ask. KeepsToSlots ask self.new.state) }
        ensures heard { self.new.state.told ≡ self.old.state.told }
        ensures steps { Steps W.tells W.taken W.count D.tells D.held D.count D.refusals out.old disk.old self.old.state.core result out.new disk.new self.new.state.core }
        ensures fails { D.tells disk.old → (r : Run) → run_of F.told F.bytes (files_of (D.held disk.old)) self.old ≡ Some r
            → OnErr result (FailsCall (λ lost. result ≡ Err lost) (W.tells out.old) (W.taken out.old) (W.taken out.new) (D.held disk.new) (D.refusals disk.old) (D.refusals disk.new) r self.old self.new) }
        ensures short { D.tells disk.old → (r : Run) → run_of F.told F.bytes (files_of (D.held disk.old)) self.old ≡ Some r
            → OnErr result (IsShort (looks_by to_look) (asked_until (looks_by to_look) r) (rest_of self.new)) }
        ensures deck { self.new.deck ≡ self.old.deck }
        ensures tally { self.new.tally ≡ self.old.tally }
        ensures kept { self.new.kept ≡ self.old.kept }
        ensures looks { self.new.looks ≡ self.old.looks }
    {
        if self.state.ending.is_some() || self.at.place >= self.deck.statements.len() {
            return Ok(Ask::Finished);
        }
        if let Stage::Start = self.state.stage {
            return self.go(to_look, alloc, disk, out);
        }
        match self.turn(alloc, disk, out) {
            Ok(turned) => self.ask_or_go(to_look, turned, alloc, disk, out),
            Err(lost) => Err(lost),
        }
    }
}
