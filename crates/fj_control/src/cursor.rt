// A walk of a format, one step a call.
ghost use Rattle.std.specs.Prelude.{◌≡◌, ℕ, ◌-◌, ◌≤◌, ◌++◌, false, replicate, IfSome, IfNone, IfOk, IsOk};
ghost use Rattle.std.specs.List.{list_any};
ghost use Rattle.fj_value.specs.declared.edit.Edit.{Edit};
ghost use Rattle.fj_format.specs.Unfolding.{edit, is_group};
ghost use Rattle.fj_control.specs.Steps.{steps, gives, RoundsAreEnough, RevertsToTheLastGroup, RevertsToTheStart, GoesOnInTheRecord};
ghost use Rattle.fj_control.specs.Walk.{begun, given, due, next_of, next_again, GivesWhatIsDue, GivesTheSteps};

use crate::again::{again_of, is_endless};
use crate::step::Step;
use crate::walker::{Walked, Walker};
use fj_format::{Format, FormatItem, have_data};
use fj_value::Edit;
use std::alloc::{AllocError, Global};
use std::marker::Model;

#[derive(Clone, Copy)]
enum State {
    Walking,
    Done,
    NoData,
}

/// A walk of a format, which it borrows.
#[derive(Drop)]
pub struct Cursor<'a> {
    walker: Walker<'a>,
    /// The items that are used again at the end of a pass.
    again: &'a [FormatItem],
    /// Whether they are used in the same record, as those of an unlimited item are.
    endless: bool,
    /// Whether these have a data descriptor.
    has_data: bool,
    state: State,
}

impl<'a> Model for Cursor<'a> {
    ghost use Rattle.fj_control.specs.Walk.{Walk};

    ghost Value = { Walk };

    ghost use Rattle.fj_control.specs.Cursor.{walk_of, IsReady};

    ghost view = { walk_of };

    ghost invariant = { IsReady };
}

impl<'a> Cursor<'a> {
    /// A walk of a format from its start (ISO/IEC 1539-1:2004, 10.3). Without groups it takes no memory.
    pub fn new(alloc: Global, format: &'a Format) -> Result<Cursor<'a>, AllocError>
        ensures flat { list_any is_group format.entry.now ≡ false → IsOk result }
        ensures begun { IfOk result (λ cursor. cursor ≡ begun format.entry.now) }
    {
        let list = format.items();
        let items = list.as_slice();
        let again = again_of(items);
        Ok(Cursor {
            walker: Walker::new(alloc, items)?,
            again,
            endless: is_endless(items),
            has_data: have_data(again),
            state: State::Walking,
        })
    }

    /// The next step, where an item is left or not (ISO/IEC 1539-1:2004, 10.3). It is `NoData`, for which a transfer has
    /// `NO_DESCRIPTOR` (11), where an item is left and the part that is used again has no data edit descriptor. After `Done` or
    /// `NoData` it is the same again.
    pub fn next(&mut self, left: bool) -> Step<'a>
        ensures given { given result ≡ (next_of self.old left).0 }
        ensures walk { self.new ≡ (next_of self.old left).1 }
        ensures due { GivesWhatIsDue self.old left (given result) self.new }
    {
        self.advance(left)
    }

    /// Where a data edit descriptor is next, up to so many times: the descriptor, and how often it comes. These steps are then
    /// before the cursor. It may be more often still. `None` changes nothing.
    pub fn run(&mut self, most: usize) -> Option<(Edit, usize)>
        ensures due { IfSome result (λ (run : Edit × ℕ). (n : ℕ) → run.1 ≤ n
            → due self.old n ≡ replicate run.1 (gives (edit run.0)) ++ due self.new (n - run.1)) }
        ensures few { IfSome result (λ (run : Edit × ℕ). (1 ≤ run.1) × (run.1 ≤ most)) }
        ensures none { IfNone result (self.new ≡ self.old) }
    {
        match self.state {
            State::Walking => self.walker.run(most),
            State::Done | State::NoData => None,
        }
    }

    /// Goes on to the next step, or to the end of control.
    fn advance(&mut self, left: bool) -> Step<'a>
        ensures given { given result ≡ (next_of self.old left).0 }
        ensures walk { self.new ≡ (next_of self.old left).1 }
    {
        match self.state {
            State::Done => Step::Done,
            State::NoData => Step::NoData,
            State::Walking => match self.walker.walk(left) {
                Walked::Gave(step) => step,
                Walked::Stopped => {
                    self.state = State::Done;
                    Step::Done
                }
                Walked::Ended => self.go_on(left),
            },
        }
    }

    /// Goes on behind the end of a pass.
    fn go_on(&mut self, left: bool) -> Step<'a>
        ensures given { given result ≡ (next_again self.old.again left).0 }
        ensures at { self.new.at ≡ (next_again self.old.again left).1 }
        ensures again { self.new.again ≡ self.old.again }
    {
        if !self.has_data {
            if left {
                self.state = State::NoData;
                return Step::NoData;
            }
            self.state = State::Done;
            return Step::Done;
        }
        if self.endless {
            self.state = State::Walking;
            self.walker.restart(self.again);
            return match self.walker.walk(left) {
                Walked::Gave(step) => step,
                Walked::Stopped | Walked::Ended => {
                    self.state = State::Done;
                    Step::Done
                }
            };
        }
        if !left {
            self.state = State::Done;
            return Step::Done;
        }
        self.state = State::Walking;
        self.walker.restart(self.again);
        Step::Slash
    }
}

/// The calls of `next` over a format, each told whether an item is left, give the format's steps and nothing else, for
/// any number of items.
pub fn gives_the_steps()
    ensures run { GivesTheSteps }
    ensures enough { RoundsAreEnough }
{}

/// Control reverts to the item that the last right parenthesis before that of the format ends, or to the start of the format where
/// there is none (ISO/IEC 1539-1:2004, 10.3).
pub fn reverts_to_the_last_group()
    ensures group { RevertsToTheLastGroup }
    ensures start { RevertsToTheStart }
{}

/// Behind an unlimited item control goes on at its first item, in the same record, and ends at a data descriptor or a colon
/// with no item left (ISO/IEC 1539-1:2010, 10.4).
pub fn goes_on_in_the_record()
    ensures { GoesOnInTheRecord }
{}
