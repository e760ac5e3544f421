// Numbers that specifiers give and get.
ghost use Rattle.std.specs.Prelude.{◌≡◌};
ghost use Rattle.std.specs.Option.{option_copied};
ghost use Rattle.fj_meaning.specs.Items.{integer_of, kind_of};
ghost use Rattle.fj_meaning.specs.Needs.{number_given};
ghost use Rattle.fj_meaning.specs.Transfers.{with_number};
ghost use Rattle.fj_store.specs.Storage.{values_of};
ghost use Rattle.fj_run_items.specs.Kinds.{kinds_of};

use fj_statement::{Operand, Variables};
use fj_store::Store;
use fj_value::{Kind, Place, Value};

/// The number that ID=, REC= or POS= gives, where it is an integer.
pub fn number_given(store: &Store, o: Option<&Operand>) -> Option<i64>
    ensures { result ≡ number_given (values_of store.now) (option_copied o.entry) }
{
    match o {
        None => None,
        Some(Operand::Literal { kind: _, value }) => integer_of(value),
        Some(Operand::One(place)) => integer_of(store.read(*place)?),
        Some(Operand::Whole { var: _ }) => None,
    }
}

fn integer_of(value: &Value) -> Option<i64>
    ensures { result ≡ integer_of value.now }
{
    match value {
        Value::Int(number) => Some(*number),
        _ => None,
    }
}

/// The kind of a variable.
pub(crate) fn kind_of(variables: &Variables, var: u32) -> Kind
    ensures { result ≡ kind_of variables.now var }
{
    match variables.get(var as usize) {
        Some(variable) => variable.kind,
        None => Kind::Logical,
    }
}

/// Gives a specifier's place a number, as its variable has it: one that its kind does not have makes it undefined.
pub fn set_number(variables: &Variables, store: &mut Store, place: Option<Place>, n: i64)
    requires { store.old.kinds ≡ kinds_of variables.now }
    ensures vars { values_of store.new ≡ with_number variables.now place n (values_of store.old) }
    ensures kinds { store.new.kinds ≡ store.old.kinds }
{
    let _ = variables;
    if let Some(place) = place {
        store.set(place, Value::Int(n));
    }
}
