// A pending transfer, and the places that it holds.
ghost use Rattle.std.specs.Prelude.{◌≡◌, false};
ghost use Rattle.std.specs.List.{list_any};
ghost use Rattle.fj_store.specs.Places.{is_among, has_twice, places_in, places_of};

use crate::place_test::{Among, RunTest};
use fj_store::{Run, Runs};
use fj_value::Tag;
use std::marker::Model;

/// Places of which no two are the same, as runs.
#[derive(Drop)]
pub struct Places {
    runs: Runs,
}

impl Model for Places {
    ghost use Rattle.std.specs.Prelude.{◌≡◌, false, List};
    ghost use Rattle.fj_value.specs.declared.place.Place.{Place};
    ghost use Rattle.fj_store.specs.Places.{has_twice, places_in};

    ghost Value = { List Place };

    ghost view = { λ places. places_in places.runs };

    ghost invariant = { λ places. has_twice (places_in places.runs) ≡ false };
}

impl Places {
    /// The places of these runs.
    pub fn of_runs(runs: Runs) -> Places
        requires { has_twice (places_in runs) ≡ false }
        ensures { result ≡ places_in runs }
    {
        Places { runs }
    }

    pub fn runs(&self) -> &[Run]
        ensures places { places_in result.now ≡ self.now }
        ensures distinct { has_twice self.now ≡ false }
    {
        self.runs.as_slice()
    }

    /// Whether a place of a run is one of them.
    pub fn meet(&self, run: Run) -> bool
        ensures { result ≡ list_any (is_among self.now) (places_of run) }
    {
        let among = Among {
            runs: self.runs.as_slice(),
        };
        among.test(run)
    }
}

/// A transfer that is pending on a unit.
#[derive(Drop)]
pub struct Pending {
    pub tag: Tag,
    pub unit: u32,
    /// READ.
    pub input: bool,
    /// Of its items or its group, and of an input SIZE=.
    pub places: Places,
    /// The number of its job.
    pub number: u64,
}
