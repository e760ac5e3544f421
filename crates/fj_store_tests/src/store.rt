// Variables that are set, read, taken out, copied and given back; once more where memory was refused, which changes nothing.
ghost use Rattle.std.specs.Prelude.{◌≡◌, IfOk};
ghost use Rattle.fj_store.specs.Pieces.{sizes};

use fj_moved::{Load, Moved};
use fj_store::{Piece, Run, Store};
use fj_value::{Cell, Kind, Place, Value};
use std::alloc::{AllocError, Global};
use std::collections::VecDeque;
use std::test::Fail;

/// An integer A, an array C of three integers, and two characters.
static VARIABLES: [(Kind, u32); 3] = [(Kind::Int4, 1), (Kind::Int8, 3), (Kind::Chars(2), 1)];

const A: Place = Place { var: 0, index: 1 };

const C1: Place = Place { var: 1, index: 1 };

const C2: Place = Place { var: 1, index: 2 };

const C3: Place = Place { var: 1, index: 3 };

fn new_store(alloc: Global) -> Result<Store, AllocError> {
    match Store::new(alloc, &VARIABLES) {
        Ok(store) => Ok(store),
        Err(_) => Store::new(alloc, &VARIABLES),
    }
}

fn is_out(store: &Store, place: Place) -> bool {
    store.read(place).is_none()
}

fn has(store: &Store, place: Place, number: i64) -> bool {
    matches!(store.read(place), Some(Value::Int(n)) if *n == number)
}

fn is_undefined(store: &Store, place: Place) -> bool {
    matches!(store.read(place), Some(Value::Undefined))
}

/// Takes A, two elements of C, the second one again and A again out.
fn take(store: &mut Store, alloc: Global) -> Option<Moved> {
    let row = Run {
        var: 1,
        first: 1,
        count: 2,
    };
    for _ in 0..2u8 {
        let runs = [Run::of_place(A), row, Run::of_place(C2), Run::of_place(A)];
        if let Ok(moved) = store.take_out(alloc, &runs) {
            return Some(moved);
        }
    }
    None
}

/// A, an integer of its own, a truth value of its own, and A again.
fn pieces_of(alloc: Global) -> Result<VecDeque<Piece>, AllocError>
    ensures { IfOk result (λ pieces. sizes pieces.items ≡ 4) }
{
    let run = Run {
        var: 0,
        first: 1,
        count: 1,
    };
    let mut pieces = VecDeque::new(alloc);
    pieces.push_back(Piece::Places(run))?;
    pieces.push_back(Piece::Own(Kind::Int4, Value::Int(4)))?;
    pieces.push_back(Piece::Own(Kind::Logical, Value::Log(true)))?;
    pieces.push_back(Piece::Places(run))?;
    Ok(pieces)
}

/// Copies these, once more where memory was refused.
fn copy(store: &mut Store, alloc: Global) -> Option<Load> {
    for _ in 0..2u8 {
        if let Ok(pieces) = pieces_of(alloc) {
            if let Ok(load) = store.copy_of(alloc, pieces, 4) {
                return Some(load);
            }
        }
    }
    None
}

/// The cells' variables and indices, and their numbers, 0 where they have none.
fn has_cells(moved: &Moved, want: &[(u32, u32, i64)]) -> bool {
    if moved.cells.len() != want.len() {
        return false;
    }
    for (cell, (var, index, number)) in moved.cells.as_slice().iter().zip(want) {
        let found = match cell.value {
            Value::Int(n) => n,
            _ => 0,
        };
        if (cell.place.var, cell.place.index, found) != (*var, *index, *number) {
            return false;
        }
    }
    true
}

/// Puts a value into the cell of this number, which is that of this place.
fn put(moved: &mut Moved, at: usize, place: Place, value: Value) {
    if at < moved.cells.len() {
        let kind = Kind::Int8;
        let _ = moved.cells.replace(at, Cell { place, kind, value });
    }
}

/// What is taken out once more, or copied, has undefined values, and each place has one cell.
fn out_is_undefined(store: &mut Store, alloc: Global) -> bool {
    let Some(mut load) = copy(store, alloc) else {
        return false;
    };
    let Ok(copied) = load.take(alloc) else {
        return false;
    };
    let Some(moved) = take(store, alloc) else {
        return false;
    };
    has_cells(
        &copied,
        &[(0, 1, 0), (4294967295, 1, 4), (4294967295, 2, 0)],
    ) && has_cells(&moved, &[(0, 1, 0), (1, 1, 0), (1, 2, 0)])
        && moved.order.as_slice() == [0, 1, 2, 2, 0].as_slice()
}

#[test]
fn items_come_back(rt: HostRuntime) -> Result<(), Fail> {
    let alloc = rt.alloc();
    let mut store = new_store(alloc)?;
    assert!(rt; is_undefined(&store, A));
    store.set(A, Value::Int(7));
    store.set(C2, Value::Int(5));
    let Some(moved) = take(&mut store, alloc) else {
        assert!(rt; false, "nothing is taken out");
        return Ok(());
    };
    // each place once, in the order of the items
    assert!(rt; has_cells(&moved, &[(0, 1, 7), (1, 1, 0), (1, 2, 5)]));
    assert!(rt; moved.order.as_slice() == [0, 1, 2, 2, 0].as_slice());
    assert!(rt; is_out(&store, A) && is_out(&store, C1) && is_out(&store, C2));
    assert!(rt; is_undefined(&store, C3));
    // what is out is undefined for others, and stays out; it comes back as its cells then are
    assert!(rt; out_is_undefined(&mut store, alloc));
    assert!(rt; is_out(&store, A) && is_out(&store, C1) && is_out(&store, C2));
    let mut moved = moved;
    put(&mut moved, 1, C1, Value::Int(8));
    put(&mut moved, 2, C2, Value::Log(true));
    store.give_load(Load::of_cells(moved));
    assert!(rt; has(&store, A, 7) && has(&store, C1, 8));
    assert!(rt; is_undefined(&store, C2) && is_undefined(&store, C3));
    Ok(())
}

#[test]
fn items_are_copied(rt: HostRuntime) -> Result<(), Fail> {
    let alloc = rt.alloc();
    let mut store = new_store(alloc)?;
    store.set(A, Value::Int(7));
    let Some(mut load) = copy(&mut store, alloc) else {
        assert!(rt; false, "nothing is copied");
        return Ok(());
    };
    let moved = load.take(alloc)?;
    assert!(rt; has_cells(&moved, &[(0, 1, 7), (4294967295, 1, 4), (4294967295, 2, 0)]));
    assert!(rt; moved.order.as_slice() == [0, 1, 2, 0].as_slice());
    assert!(rt; has(&store, A, 7));
    Ok(())
}

/// An array of integers that is long enough to be shared.
static LONG: [(Kind, u32); 1] = [(Kind::Int4, 64)];

/// Copies the whole of it, once more where memory was refused.
fn copy_whole(store: &mut Store, alloc: Global) -> Option<Load> {
    let run = Run {
        var: 0,
        first: 1,
        count: 64,
    };
    for _ in 0..2u8 {
        if let Ok(load) = store.copy_of_run(alloc, run) {
            return Some(load);
        }
    }
    None
}

/// Whether the first value of a copy is this number.
fn begins_with(load: &Load, number: i64) -> bool {
    match load.items().next() {
        Some(item) => matches!(item.value, Value::Int(n) if *n == number),
        None => false,
    }
}

#[test]
fn copies_keep_their_values(rt: HostRuntime) -> Result<(), Fail> {
    let alloc = rt.alloc();
    let mut store = Store::new(alloc, &LONG)?;
    store.set(A, Value::Int(7));
    let (Some(first), Some(second)) = (copy_whole(&mut store, alloc), copy_whole(&mut store, alloc))
    else {
        assert!(rt; false, "nothing is copied");
        return Ok(());
    };
    // while copies are there, and behind them
    store.set(A, Value::Int(8));
    assert!(rt; has(&store, A, 8) && begins_with(&first, 7) && begins_with(&second, 7));
    let third = copy_whole(&mut store, alloc);
    assert!(rt; third.is_some());
    drop(third);
    store.set(A, Value::Int(9));
    assert!(rt; has(&store, A, 9));
    // one that comes back
    drop(first);
    store.give_load(second);
    assert!(rt; has(&store, A, 7));
    Ok(())
}
