// What a deck came to, and where the statement at hand is.
ghost use Rattle.std.specs.Prelude.{◌≡◌, ◌<◌, true, length};
ghost use Rattle.std.proofs.Props.{props};
ghost use Rattle.fj_meaning_jobs.specs.Desks.{most_slots};
ghost use Rattle.fj_run_script.specs.Numbering.{AreGiven, AreNamed, AreSlots, AreUntold, AreWithin, OwnIsLast, OwnIsUntold, slots_behind};
ghost use Rattle.fj_run_script.specs.Passing.{is_passed};

use crate::ending::Ending;
use crate::stage::Stage;
use fj_outside::FileStore;
use fj_run_statements::Core;

/// What a deck came to, the stage of the statement at hand, and by slot how many jobs were given and how many of them were told.
#[derive(Drop)]
pub(crate) struct State<F: FileStore> {
    pub(crate) core: Core,
    pub(crate) sent: Vec<u64>,
    pub(crate) told: Vec<u64>,
    pub(crate) stage: Stage<F>,
    /// The slot of the last Settle.
    pub(crate) due: u32,
    pub(crate) ending: Option<Ending>,
    ghost passed: { is_passed core.pending stage ≡ true },
    ghost sent_slots: { length sent.items ≡ most_slots },
    ghost told_slots: { length told.items ≡ most_slots },
    ghost due_slot: { due < most_slots },
    ghost given: { AreGiven sent.items core.pending } by { Prim.hlevel props },
    ghost named: { AreNamed core.next core.pending } by { Prim.hlevel props },
    ghost own: { OwnIsLast sent.items core.pending stage } by { Prim.hlevel props },
    ghost within: { AreWithin told.items sent.items } by { Prim.hlevel props },
    ghost untold: { AreUntold told.items core.pending } by { Prim.hlevel props },
    ghost own_untold: { OwnIsUntold told.items stage } by { Prim.hlevel props },
    ghost later: { AreSlots (slots_behind stage) } by { Prim.hlevel props },
}
