// What the runner holds between two asks.
ghost use Rattle.std.specs.Prelude.{◌≡◌, ◌+◌, ◌≤◌, true, IsSome, drop, length, vec_capacity};
ghost use Rattle.fj_run_items.specs.Kinds.{kinds_of};
ghost use Rattle.fj_run_script.specs.Closing.{hand_may_be_at};
ghost use Rattle.fj_run_script.specs.Room.{looks_left};

use crate::looking::Look;
use crate::state::State;
use crate::tally::Tally;
use fj_connect::Connection;
use fj_outside::FileStore;
use fj_statement::Deck;

/// The statement at hand: its place in the deck, and the number of its unit once it has begun.
#[derive(Clone, Copy)]
pub struct AtHand {
    pub(crate) place: usize,
    pub(crate) number: Option<u32>,
}

/// A deck that is carried out: what it came to, and the statement at hand.
#[derive(Drop)]
pub struct Machine<F: FileStore> {
    pub(crate) deck: Deck,
    pub(crate) state: State<F>,
    pub(crate) at: AtHand,
    pub(crate) tally: Tally,
    /// A connection whose job was refused. It is over then, so no second one comes.
    pub(crate) kept: Option<Connection<F>>,
    /// The looks that it made, with room for those that may still come.
    pub(crate) looks: Vec<Look>,
    ghost kinds: { state.core.store.kinds ≡ kinds_of deck.variables },
    ghost hand: { hand_may_be_at deck.statements at.place state.stage ≡ true },
    ghost refused: { IsSome kept → tally.over ≡ true },
    ghost room: { length looks.items + looks_left (drop at.place deck.statements) ≤ vec_capacity looks },
}
