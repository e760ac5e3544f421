// The elements of a variable, which a copy shares until either of the two changes.
ghost use Rattle.std.specs.Prelude.{◌≡◌, ◌<◌, ◌≤◌, [], Some, true, false, length, slice_get, slice_set, vec_capacity, IfOk, IfSome};
ghost use Rattle.std.specs.List.{list_all, list_any};
ghost use Rattle.std.specs.Option.{option_copied};
ghost use Rattle.fj_moved.specs.Values.{is_undefined, takes_no_memory};
ghost use Rattle.std.specs.Borrow.{Lends, sem};
ghost use Rattle.fj_moved.specs.Elements.{elements_of, is_own, IsKept};
ghost use Rattle.fj_moved.specs.declared.elements.Kept.TheVariants.{Own};

use fj_value::{Items, Value};
use std::alloc::{AllocError, Global};
use std::marker::Model;
use std::sync::Arc;

/// What may stand in a variable.
pub trait Element {
    ghost use Rattle.std.specs.Prelude.{◌≡◌, Bool, true};

    ghost plain: { Self → Bool };

    ghost undefined: { Self → Bool };

    /// Whether a copy of it takes no memory.
    fn is_plain(&self) -> bool
        ensures { result ≡ plain self.now };

    /// Whether it is undefined.
    fn is_undefined(&self) -> bool
        ensures { result ≡ undefined self.now };

    /// The same once more, which takes no memory.
    fn plain_copy(&self) -> Self
        requires { plain self.now ≡ true }
        ensures { result ≡ self.now };
}

impl Element for Value {
    ghost plain = { takes_no_memory };

    ghost undefined = { is_undefined };

    #[inline(always)]
    fn is_plain(&self) -> bool {
        match self {
            Value::Undefined | Value::Int(_) | Value::Log(_) => true,
            Value::Chars(_) => false,
        }
    }

    #[inline(always)]
    fn is_undefined(&self) -> bool {
        matches!(self, Value::Undefined)
    }

    #[inline(always)]
    fn plain_copy(&self) -> Value {
        match self {
            Value::Int(number) => Value::Int(*number),
            Value::Log(truth) => Value::Log(*truth),
            Value::Undefined | Value::Chars(_) => Value::Undefined,
        }
    }
}

/// Elements of one owner; whether it is known that all are plain, and whether it is known that none is undefined. Contracts see them as a
/// list.
#[derive(Debug, Drop)]
pub struct Owned<T: Element> {
    items: Items<T>,
    plain: bool,
    filled: bool,
}

impl<T: Element> Model for Owned<T> {
    ghost use Rattle.std.specs.Prelude.{◌≡◌, List, true, false};
    ghost use Rattle.std.specs.Coded.{coded_list};
    ghost use Rattle.std.specs.List.{list_all, list_any};

    ghost Value = { List T };

    ghost coded = { coded_list T.code };

    ghost view = { λ owned. owned.items };

    ghost invariant = { λ owned. (owned.plain ≡ true → list_all T.plain owned.items ≡ true) × (owned.filled ≡ true → list_any T.undefined owned.items ≡ false) };
}

/// Elements of one owner; or those that others share, with room for copies of them all: where they change while others have them,
/// they are copied there, which takes no memory. That room costs next to nothing until then, as none of it is touched.
#[derive(Debug, Drop)]
enum Kept<T: Element> {
    Own(Owned<T>),
    Shared(Arc<Owned<T>, Global>, Vec<T>),
}

/// The elements of a variable. Contracts see them as a list.
#[derive(Debug, Drop)]
pub struct Elements<T: Element> {
    kept: Kept<T>,
}

impl<T: Element> Model for Elements<T> {
    ghost use Rattle.std.specs.Prelude.{List};
    ghost use Rattle.std.specs.Coded.{coded_list};
    ghost use Rattle.fj_moved.specs.Elements.{elements_of, IsKept};

    ghost Value = { List T };

    ghost coded = { coded_list T.code };

    ghost view = { λ elements. elements_of elements.kept };

    ghost invariant = { λ elements. IsKept T.plain elements.kept };
}

/// Whether no copy of these takes memory.
fn are_plain<T: Element>(items: &[T]) -> bool
    ensures { result ≡ list_all T.plain items.now }
{
    for item in items {
        if !item.is_plain() {
            return false;
        }
    }
    true
}

/// Whether one of these is undefined. It looks at all of them.
pub fn any_undefined<T: Element>(items: &[T]) -> bool
    ensures { result ≡ list_any T.undefined items.now }
{
    let mut any = false;
    for item in items {
        any |= item.is_undefined();
    }
    any
}

/// Room for so many.
fn room_for<T: Drop>(alloc: Global, count: usize) -> Result<Vec<T>, AllocError>
    ensures none { IfOk result (λ room. room.items ≡ []) }
    ensures room { IfOk result (λ room. count ≤ vec_capacity room) }
{
    let mut room = Vec::new(alloc);
    room.reserve(count)?;
    Ok(room)
}

/// Copies of these, where there is room for them.
#[inline(never)]
fn copied<T: Element + Drop>(items: &[T], room: Vec<T>) -> Items<T>
    requires plain { list_all T.plain items.now ≡ true }
    requires none { room.items ≡ [] }
    requires room { length items.now ≤ vec_capacity room }
    ensures { result ≡ items.now }
{
    let mut copies = room;
    for item in items {
        copies.push_reserved(item.plain_copy());
    }
    Items::from_vec(copies)
}

impl<T: Element> Owned<T> {
    /// These elements, of which it is not known that they are plain or that none is undefined.
    fn of(items: Items<T>) -> Owned<T>
        ensures { result ≡ items }
    {
        Owned {
            items,
            plain: false,
            filled: false,
        }
    }

    fn as_slice(&self) -> &[T]
        ensures { result.now ≡ self.now }
    {
        self.items.as_slice()
    }

    #[inline(always)]
    pub fn len(&self) -> usize
        ensures { result ≡ length self.now }
    {
        self.items.len()
    }

    #[inline(always)]
    pub fn get(&self, at: usize) -> Option<&T>
        ensures { option_copied result ≡ slice_get self.now at }
    {
        self.items.get(at)
    }
}

impl<T: Element + Drop> Owned<T> {
    /// Puts an element into the place of another, which it answers. They stay known as plain where it is, and as filled
    /// where it is not undefined.
    #[inline(always)]
    pub fn replace(&mut self, at: usize, item: T) -> T
        requires { at < length self.old }
        ensures item { slice_get self.old at ≡ Some result }
        ensures rest { self.new ≡ slice_set self.old at item }
    {
        self.plain = self.plain & item.is_plain();
        self.filled = self.filled & !item.is_undefined();
        self.items.replace(at, item)
    }

    /// Looks whether one of them is undefined, unless it is known that none is.
    fn look(&mut self)
        ensures { self.new ≡ self.old }
    {
        if !self.filled {
            self.filled = !any_undefined(self.items.as_slice());
        }
    }

    /// Copies of these, where there is room for them.
    fn copied(&self, room: Vec<T>) -> Owned<T>
        requires plain { list_all T.plain self.now ≡ true }
        requires none { room.items ≡ [] }
        requires room { length self.now ≤ vec_capacity room }
        ensures { result ≡ self.now }
    {
        Owned {
            items: copied(self.as_slice(), room),
            plain: self.plain,
            filled: self.filled,
        }
    }
}

impl<T: Element> Kept<T> {
    fn allocator(&self) -> Global {
        match self {
            Kept::Own(owned) => owned.items.allocator(),
            Kept::Shared(_, spare) => *spare.allocator(),
        }
    }
}

impl<T: Element> Kept<T> {
    ghost use Rattle.fj_moved.specs.contracts.elements.Kept.{the_row};
    ghost use Rattle.fj_moved.specs.contracts.elements.Owned.{the_row as owned_row};

    /// The elements of one owner.
    #[inline(always)]
    fn owned_mut(&mut self) -> &mut Owned<T>
        requires { is_own self.old ≡ true }
        ensures* writes_back { sem 𝓛 (Lends (the_row T.row T.Element) (owned_row T.row T.Element) self.entry result Own) }
        ensures value { result.now ≡ elements_of self.old }
    {
        match self {
            Kept::Own(owned) => owned,
            Kept::Shared(_, _) => unreachable!(),
        }
    }
}

impl<T: Element + Drop> Kept<T> {
    /// The elements by themselves. It takes no memory.
    fn apart(self) -> Owned<T>
        requires { IsKept T.plain self }
        ensures { result ≡ elements_of self }
    {
        match self {
            Kept::Own(owned) => owned,
            Kept::Shared(shared, spare) => match Arc::try_unwrap(shared) {
                Ok(owned) => owned,
                Err(shared) => shared.copied(spare),
            },
        }
    }

    /// Takes the elements out, which leaves none.
    #[inline(never)]
    fn take(&mut self) -> Owned<T>
        requires { IsKept T.plain self.old }
        ensures taken { result ≡ elements_of self.old }
        ensures left { IsKept T.plain self.new }
    {
        let nothing = Kept::Own(Owned::of(Items::new(self.allocator())));
        std::mem::replace(self, nothing).apart()
    }

    /// Makes elements that may be shared those of one owner. It takes no memory.
    #[inline(always)]
    fn unshare(&mut self)
        requires { IsKept T.plain self.old }
        ensures same { elements_of self.new ≡ elements_of self.old }
        ensures own { is_own self.new ≡ true }
    {
        if let Kept::Shared(_, _) = self {
            *self = Kept::Own(self.take());
        }
    }
}

/// What is kept of elements that are to be shared; where they are not plain they are not.
fn kept_to_share<T: Element + Drop>(
    alloc: Global,
    owned: Owned<T>,
    spare: Vec<T>,
) -> (Kept<T>, Result<(), AllocError>)
    requires none { spare.items ≡ [] }
    requires room { length owned ≤ vec_capacity spare }
    ensures items { elements_of result.0 ≡ owned }
    ensures kept { IsKept T.plain result.0 }
{
    if !owned.plain {
        return (Kept::Own(owned), Ok(()));
    }
    match Arc::new(alloc, owned) {
        Ok(shared) => (Kept::Shared(shared, spare), Ok(())),
        Err(refused) => (Kept::Own(refused.value), Err(AllocError)),
    }
}

impl<T: Element> Elements<T> {
    /// These elements, which are not shared.
    pub fn of(items: Items<T>) -> Elements<T>
        ensures { result ≡ items }
    {
        Elements {
            kept: Kept::Own(Owned::of(items)),
        }
    }

    /// These elements, which may be shared where they are plain.
    pub fn to_share(items: Items<T>) -> Elements<T>
        ensures { result ≡ items }
    {
        let plain = are_plain(items.as_slice());
        Elements {
            kept: Kept::Own(Owned {
                items,
                plain,
                filled: false,
            }),
        }
    }

    #[inline(always)]
    pub fn len(&self) -> usize
        ensures { result ≡ length self.now }
    {
        self.as_slice().len()
    }

    #[inline(always)]
    pub fn get(&self, at: usize) -> Option<&T>
        ensures { option_copied result ≡ slice_get self.now at }
    {
        self.as_slice().get(at)
    }

    #[inline(always)]
    pub fn as_slice(&self) -> &[T]
        ensures { result.now ≡ self.now }
    {
        match &self.kept {
            Kept::Own(owned) => owned.as_slice(),
            Kept::Shared(shared, _) => shared.as_slice(),
        }
    }

    /// Whether it is known that none of them is undefined.
    pub fn is_filled(&self) -> bool
        ensures { result ≡ true → list_any T.undefined self.now ≡ false }
    {
        match &self.kept {
            Kept::Own(owned) => owned.filled,
            Kept::Shared(shared, _) => shared.filled,
        }
    }
}

impl<T: Element + Drop> Elements<T> {
    ghost use Rattle.fj_moved.specs.contracts.elements.Elements.{the_row};
    ghost use Rattle.fj_moved.specs.contracts.elements.Owned.{the_row as owned_row};

    /// The elements by themselves. It takes no memory.
    pub fn into_items(self) -> Items<T>
        ensures { result ≡ self }
    {
        self.kept.apart().items
    }

    /// The elements as those of one owner, which may be changed. It takes no memory.
    #[inline(always)]
    pub fn owned_mut(&mut self) -> &mut Owned<T>
        ensures* writes_back { sem 𝓛 (Lends (the_row T.row T.Element) (owned_row T.row T.Element) self.entry result (λ w. w)) }
        ensures value { result.now ≡ self.old }
    {
        let kept = &mut self.kept;
        kept.unshare();
        kept.owned_mut()
    }

    /// Puts an element into the place of another, which it answers. It takes no memory.
    #[inline(always)]
    pub fn replace(&mut self, at: usize, item: T) -> T
        requires { at < length self.old }
        ensures item { slice_get self.old at ≡ Some result }
        ensures rest { self.new ≡ slice_set self.old at item }
    {
        self.owned_mut().replace(at, item)
    }

    /// The same elements once more, which have this room for copies; none where they are not shared, or have too many owners.
    fn again(&self, spare: Vec<T>) -> Option<Elements<T>>
        requires none { spare.items ≡ [] }
        requires room { length self.now ≤ vec_capacity spare }
        ensures { IfSome result (λ elements. elements ≡ self.now) }
    {
        match &self.kept {
            Kept::Own(_) => None,
            Kept::Shared(shared, _) => match Arc::try_clone(shared) {
                Ok(shared) => Some(Elements {
                    kept: Kept::Shared(shared, spare),
                }),
                Err(_) => None,
            },
        }
    }

    /// Lets elements of one owner be shared, where they are plain. Want of memory changes nothing.
    fn prepare(&mut self, alloc: Global) -> Result<(), AllocError>
        ensures { self.new ≡ self.old }
    {
        if let Kept::Shared(_, _) = &self.kept {
            return Ok(());
        }
        let spare = room_for(alloc, self.len())?;
        let mut owned = self.kept.take();
        owned.look();
        let (kept, done) = kept_to_share(alloc, owned, spare);
        self.kept = kept;
        done
    }

    /// The same elements once more, shared with these; none where they are not plain, or have too many owners. It changes nothing.
    pub fn share(&mut self, alloc: Global) -> Result<Option<Elements<T>>, AllocError>
        ensures same { self.new ≡ self.old }
        ensures shared { IfOk result (λ o. IfSome o (λ elements. elements ≡ self.old)) }
    {
        if let Kept::Own(owned) = &self.kept {
            if !owned.plain {
                return Ok(None);
            }
        }
        let spare = room_for(alloc, self.len())?;
        self.prepare(alloc)?;
        Ok(self.again(spare))
    }
}
