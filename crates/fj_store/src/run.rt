// Runs of places: some elements of a variable, one behind the other.
ghost use Rattle.std.specs.Prelude.{◌≡◌, ◌+◌, ◌<◌};

use fj_value::Place;

/// So many elements of a variable, from an index on. A scalar is the one element of index 1.
#[derive(Clone, Copy)]
pub struct Run {
    pub var: u32,
    pub first: u32,
    pub count: u32,
    ghost fits: { first + count < 4294967297 },
}

/// A run of no places.
impl Default for Run {
    fn default() -> Run {
        Run {
            var: 0,
            first: 1,
            count: 0,
        }
    }
}

impl Run {
    ghost use Rattle.std.specs.Prelude.{◌≡◌, ◌+◌, ◌<◌, ◌∷◌, []};
    ghost use Rattle.std.specs.List.{list_any};
    ghost use Rattle.fj_store.specs.Places.{places_of, is_among};

    /// One place.
    pub fn of_place(place: Place) -> Run
        ensures { places_of result ≡ place ∷ [] }
    {
        Run {
            var: place.var,
            first: place.index,
            count: 1,
        }
    }

    /// Whether a place is one of its places.
    pub fn holds(self, place: Place) -> bool
        ensures { result ≡ is_among (places_of self) place }
    {
        if place.var != self.var {
            return false;
        }
        if place.index < self.first {
            return false;
        }
        place.index - self.first < self.count
    }

    /// The index behind its places.
    fn end(self) -> u64
        ensures { result ≡ self.first + self.count }
    {
        u64::from(self.first) + u64::from(self.count)
    }

    /// Whether it has a place of another run.
    pub fn meets(self, other: Run) -> bool
        ensures { result ≡ list_any (is_among (places_of other)) (places_of self) }
    {
        let first = self.first.max(other.first);
        let end = self.end().min(other.end());
        self.var == other.var && u64::from(first) < end
    }

    /// The place behind so many others.
    pub fn place_at(self, at: u32) -> Place
        requires { at < self.count }
        ensures var { result.var ≡ self.var }
        ensures index { result.index ≡ self.first + at }
    {
        Place {
            var: self.var,
            index: self.first + at,
        }
    }
}
