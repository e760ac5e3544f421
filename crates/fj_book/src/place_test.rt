// Tests of places, and whether some place of runs passes one.
ghost use Rattle.std.specs.Prelude.{◌≡◌, ◌||◌, [], ◌∷◌};
ghost use Rattle.std.specs.List.{list_any};
ghost use Rattle.fj_store.specs.Places.{places_of, places_in, is_among};

use fj_store::Run;
use fj_value::Place;

/// A test of places, which answers for a whole run whether some place passes.
pub trait RunTest {
    ghost use Rattle.std.specs.Prelude.{◌≡◌, Bool};
    ghost use Rattle.std.specs.List.{list_any};
    ghost use Rattle.fj_value.specs.declared.place.Place.{Place};
    ghost use Rattle.fj_store.specs.Places.{places_of};

    ghost passes: { Self → Place → Bool };

    fn test(&self, run: Run) -> bool
        ensures { result ≡ list_any (passes self.now) (places_of run) };
}

/// Whether a place of runs passes.
pub(crate) fn any_in_runs<T: RunTest>(runs: &[Run], test: &T) -> bool
    ensures { result ≡ list_any (T.passes test.now) (places_in runs.now) }
{
    for run in runs {
        if test.test(*run) {
            return true;
        }
    }
    false
}

/// Whether one of some places passes.
pub(crate) fn any_of<T: RunTest>(places: &[Place], test: &T) -> bool
    ensures { result ≡ list_any (T.passes test.now) places.now }
{
    for place in places {
        if test.test(Run::of_place(*place)) {
            return true;
        }
    }
    false
}

/// Is it a place of these runs?
#[derive(Clone, Copy)]
pub(crate) struct Among<'a> {
    pub runs: &'a [Run],
}

impl<'a> RunTest for Among<'a> {
    ghost passes = { λ among place. is_among (places_in among.runs.now) place };

    fn test(&self, run: Run) -> bool {
        for other in self.runs {
            if run.meets(*other) {
                return true;
            }
        }
        false
    }
}
