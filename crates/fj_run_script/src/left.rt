// What a runner leaves.
ghost use Rattle.std.specs.Prelude.{◌≡◌};

use crate::ending::Ending;
use crate::looking::Look;
use crate::machine::Machine;
use crate::state::State;
use fj_connect::Connection;
use fj_outside::FileStore;
use fj_run_items::Lost;
use fj_run_statements::Core;
use fj_statement::Deck;

/// What a runner leaves: its deck and what that came to, how it ended, and the place of the statement at hand.
#[derive(Drop)]
pub struct Left<F: FileStore> {
    pub deck: Deck,
    pub core: Core,
    pub ending: Option<Ending>,
    /// It was given up, or told a stop.
    pub over: bool,
    /// What was lost first.
    pub lost: Option<Lost>,
    pub at: usize,
    /// A connection whose job was refused.
    pub kept: Option<Connection<F>>,
    pub looks: Vec<Look>,
}

impl<F: FileStore> Machine<F> {
    /// What it leaves.
    pub fn into_left(self) -> Left<F>
        ensures deck { result.deck ≡ self.deck }
        ensures core { result.core ≡ self.state.core }
        ensures ending { result.ending ≡ self.state.ending }
        ensures over { result.over ≡ self.tally.over }
        ensures lost { result.lost ≡ self.tally.lost }
        ensures at { result.at ≡ self.at.place }
        ensures kept { result.kept ≡ self.kept }
        ensures looks { result.looks ≡ self.looks }
    {
        let Machine {
            deck,
            state,
            at,
            tally,
            kept,
            looks,
        } = self;
        let State { core, ending, .. } = state;
        Left {
            deck,
            core,
            ending,
            over: tally.over,
            lost: tally.lost,
            at: at.place,
            kept,
            looks,
        }
    }
}
