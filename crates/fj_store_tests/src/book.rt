// Transfers that are entered and told, and what statements beside them are told; once more where memory was refused.
ghost use Rattle.std.specs.Prelude.{◌≡◌, ◌≤◌, IfOk};
ghost use Rattle.fj_book.specs.Entries.{tag_of};

use fj_book::{Book, Need, Pending, Places};
use fj_store::{Run, Runs, Store};
use fj_value::{Kind, Place, Rule, Tag, Value};
use std::alloc::{AllocError, Global};
use std::test::Fail;

/// Integers A and B, and an array C of two.
static VARIABLES: [(Kind, u32); 3] = [(Kind::Int4, 1), (Kind::Int4, 1), (Kind::Int4, 2)];

const A: Place = Place { var: 0, index: 1 };

const B: Place = Place { var: 1, index: 1 };

const C1: Place = Place { var: 2, index: 1 };

const C2: Place = Place { var: 2, index: 2 };

/// A is 3, B undefined, C(1) is 1, C(2) undefined.
fn store_of(alloc: Global) -> Result<Store, AllocError> {
    let mut store = Store::new(alloc, &VARIABLES)?;
    store.set(A, Value::Int(3));
    store.set(C1, Value::Int(1));
    Ok(store)
}

/// A transfer of one place.
fn pending(
    alloc: Global,
    id: u32,
    unit: u32,
    input: bool,
    place: Place,
) -> Result<Pending, AllocError>
    ensures { IfOk result (λ p. tag_of p ≡ id) }
{
    let mut runs = Runs::new(alloc);
    runs.push(Run::of_place(place))?;
    Ok(Pending {
        tag: Tag(id),
        unit,
        input,
        places: Places::of_runs(runs),
        number: 0,
    })
}

/// A READ of A and a WRITE of C(1) on unit 10, and a READ of B on unit 11.
fn book_of(alloc: Global) -> Result<Book, AllocError> {
    let mut book = Book::new(alloc, &VARIABLES)?;
    book.enter(pending(alloc, 1, 10, true, A)?)?;
    book.enter(pending(alloc, 2, 10, false, C1)?)?;
    book.enter(pending(alloc, 3, 11, true, B)?)?;
    Ok(book)
}

/// Both, once more where memory was refused.
fn made(alloc: Global) -> Result<(Store, Book), AllocError> {
    for _ in 0..1u8 {
        if let (Ok(store), Ok(book)) = (store_of(alloc), book_of(alloc)) {
            return Ok((store, book));
        }
    }
    Ok((store_of(alloc)?, book_of(alloc)?))
}

/// The place that a statement references, the one that it defines, its unit, the value of ID=, and what it is told.
type Asked = (Option<Place>, Option<Place>, u32, Option<i64>, Option<Rule>);

/// How many places are given.
fn count_of(given: Option<Place>) -> usize
    ensures { result ≤ 1 }
{
    if given.is_some() { 1 } else { 0 }
}

fn told(book: &Book, store: &Store, asked: &Asked) -> Option<Rule> {
    let (reference, definition, unit, id, _) = *asked;
    let references = [Run::of_place(reference.unwrap_or(A))];
    let defines = [Run::of_place(definition.unwrap_or(A))];
    let need = Need {
        unit: Some(unit),
        references: &references[..count_of(reference)],
        defines: &defines[..count_of(definition)],
        specifiers: &[],
        items: &[],
        internal: &[],
        id,
    };
    book.check(store, &need)
}

/// Whether each is told what stands there.
fn are_told(book: &Book, store: &Store, all: &[Asked]) -> bool {
    for asked in all {
        if told(book, store, asked) != asked.4 {
            return false;
        }
    }
    true
}

/// What statements are told beside all three.
static BESIDE_ALL: [Asked; 14] = [
    (Some(A), None, 10, None, Some(Rule::P1)),
    (Some(B), None, 10, None, Some(Rule::P1)),
    (Some(C1), None, 10, None, None),
    (None, Some(A), 10, None, Some(Rule::P2)),
    (None, Some(C1), 11, None, Some(Rule::P2)),
    (Some(C2), None, 10, None, Some(Rule::P3)),
    (None, Some(C2), 10, None, None),
    (Some(C2), Some(C1), 10, None, Some(Rule::P2)),
    (None, None, 10, Some(1), None),
    (None, None, 10, Some(3), Some(Rule::P4)),
    (None, None, 11, Some(3), None),
    (None, None, 10, Some(-1), Some(Rule::P4)),
    (None, None, 10, Some(4294967297), Some(Rule::P4)),
    (Some(C2), None, 10, Some(4), Some(Rule::P3)),
];

/// What they are told once the first was told.
static BESIDE_TWO: [Asked; 5] = [
    (Some(A), None, 10, None, None),
    (None, Some(A), 10, None, None),
    (Some(B), None, 10, None, Some(Rule::P1)),
    (None, Some(C1), 10, None, Some(Rule::P2)),
    (None, None, 10, Some(1), Some(Rule::P4)),
];

#[test]
fn transfers_hold_until_told(rt: HostRuntime) -> Result<(), Fail> {
    let (store, book) = made(rt.alloc())?;
    let mut book = book;
    assert!(rt; are_told(&book, &store, &BESIDE_ALL));
    assert!(rt; book.entries().len() == 3);
    assert!(rt; book.first_of(10) == Some(Tag(1)) && book.first_of(11) == Some(Tag(3)));
    assert!(rt; book.first_of(12).is_none());
    let first = book.tell(Tag(1));
    assert!(rt;
        matches!(&first, Some(it) if it.unit == 10 && it.input && it.places.meet(Run::of_place(A)))
    );
    assert!(rt; book.tell(Tag(1)).is_none());
    assert!(rt; are_told(&book, &store, &BESIDE_TWO));
    assert!(rt; book.first_of(10) == Some(Tag(2)));
    Ok(())
}

#[test]
fn a_refused_entering_changes_nothing(rt: HostRuntime) -> Result<(), Fail> {
    let alloc = rt.alloc();
    let (store, _) = made(alloc)?;
    let mut book = match Book::new(alloc, &VARIABLES) {
        Ok(book) => book,
        Err(_) => Book::new(alloc, &VARIABLES)?,
    };
    let reads = (Some(A), None, 10, None, Some(Rule::P1));
    for _ in 0..2u8 {
        if book.entries().is_empty() {
            assert!(rt; told(&book, &store, &reads).is_none() && book.first_of(10).is_none());
            if let Ok(pending) = pending(alloc, 1, 10, true, A) {
                let _ = book.enter(pending);
            }
        }
    }
    assert!(rt; book.entries().len() == 1);
    assert!(rt; told(&book, &store, &reads) == Some(Rule::P1));
    Ok(())
}
