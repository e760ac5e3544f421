// What a statement references, defines and names.
ghost use Rattle.std.specs.Prelude.{◌≡◌};
ghost use Rattle.fj_store.specs.Places.{is_among, has_twice};
ghost use Rattle.fj_book.specs.Needs.{need_of};

use crate::place_test::{Among, RunTest, any_in_runs, any_of};
use fj_store::Run;
use fj_value::Place;

/// What a statement needs, told without a list of its places.
pub trait Needs {
    ghost use Rattle.std.specs.Prelude.{◌≡◌};
    ghost use Rattle.std.specs.List.{list_any};
    ghost use Rattle.fj_book.specs.Prohibitions.{Need, defines_twice};

    ghost need: { Self → Need };

    fn unit(&self) -> Option<u32>
        ensures { result ≡ (need self.now).unit };

    /// The value of ID= in WAIT and INQUIRE.
    fn id(&self) -> Option<i64>
        ensures { result ≡ (need self.now).id };

    /// Whether a place that it references passes.
    fn any_referenced<T: RunTest>(&self, test: &T) -> bool
        ensures { result ≡ list_any (T.passes test.now) (need self.now).references };

    /// Whether a place that it defines passes.
    fn any_defined<T: RunTest>(&self, test: &T) -> bool
        ensures { result ≡ list_any (T.passes test.now) (need self.now).defines };

    /// Whether a place that a specifier defines is defined or transferred by another part too.
    fn defines_twice(&self) -> bool
        ensures { result ≡ defines_twice (need self.now) };
}

/// The unit of a statement, the places that it references and defines, those that its specifiers define, its items or its
/// group, the elements of its internal file, and the value of ID= in WAIT and INQUIRE.
#[derive(Clone, Copy)]
pub struct Need<'a> {
    pub unit: Option<u32>,
    pub references: &'a [Run],
    pub defines: &'a [Run],
    pub specifiers: &'a [Place],
    pub items: &'a [Run],
    pub internal: &'a [Run],
    pub id: Option<i64>,
}

/// Whether a place is one of some places.
fn stands_among(places: &[Place], place: Place) -> bool
    ensures { result ≡ is_among places.now place }
{
    places.iter().any(|other| place.var == other.var && place.index == other.index)
}

/// Whether a place stands twice.
fn has_twice(places: &[Place]) -> bool
    ensures { result ≡ has_twice places.now }
{
    for at in 0..places.len() {
        if stands_among(&places[at + 1..], places[at]) {
            return true;
        }
    }
    false
}

impl<'a> Needs for Need<'a> {
    ghost need = { λ need. need_of need };

    fn unit(&self) -> Option<u32> {
        self.unit
    }

    fn id(&self) -> Option<i64> {
        self.id
    }

    fn any_referenced<T: RunTest>(&self, test: &T) -> bool {
        any_in_runs(self.references, test)
    }

    fn any_defined<T: RunTest>(&self, test: &T) -> bool {
        any_in_runs(self.defines, test)
    }

    fn defines_twice(&self) -> bool {
        let items = Among { runs: self.items };
        let internal = Among {
            runs: self.internal,
        };
        has_twice(self.specifiers)
            || any_of(self.specifiers, &items)
            || any_of(self.specifiers, &internal)
            || any_in_runs(self.items, &internal)
    }
}
