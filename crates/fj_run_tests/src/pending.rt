// Transfers that are entered, answered and told.
use Came::{At, Done, Is, Refused, Said, Waited};
use Step::{Answered, EndsHalt, Enter, Has, Next, Reads, Waits};
use fj_book::Places;
use fj_run_pending::{Held, Lost, Pendings, Tell, Told, Whose};
use fj_store::{Runs, Store};
use fj_value::{Condition, Items, Tag};
use std::alloc::{AllocError, Global};
use std::test::Fail;

/// What is done with pending transfers, or asked of them.
#[derive(Clone, Copy)]
enum Step {
    /// A transfer is entered: its identifier, its unit, its slot and the number of its job.
    Enter(u32, u32, u32, u64),
    /// The job of a slot and a number is answered with a condition.
    Answered(u32, u64, Condition),
    /// Whether one has this slot and this number.
    Has(u32, u64),
    /// The next that is not answered.
    Next(Whose),
    /// Whether a wait ends the halt of a unit.
    EndsHalt(Whose, u32),
    /// A wait at a line tells them.
    Waits(Whose, u32),
    /// What was told, by its number.
    Reads(usize),
}

/// What that comes to.
#[derive(Clone, Copy, PartialEq, Eq)]
enum Came {
    Done,
    Refused,
    Is(bool),
    At(Option<(usize, u32)>),
    /// The condition, how many were told in all, and how many are left.
    Waited(Condition, usize, usize),
    Said(Option<Tell>),
}

fn enter(
    pendings: &mut Pendings,
    alloc: Global,
    entered: (u32, u32, u32, u64),
) -> Result<(), Lost> {
    let (id, unit, slot, number) = entered;
    let held = Held {
        tag: Tag(id),
        unit,
        input: false,
        runs: Runs::new(alloc),
        size: None,
        slot,
        number,
        answer: None,
    };
    pendings.enter(held, Places::of_runs(Runs::new(alloc)))
}

/// What answers a job.
fn told(condition: Condition) -> Told {
    Told {
        moved: None,
        count: None,
        condition,
    }
}

fn done_if(well: bool) -> Came {
    if well { Done } else { Refused }
}

/// Tells what a wait tells; no variable is there.
fn wait(
    alloc: Global,
    pendings: &mut Pendings,
    tells: &mut Items<Tell>,
    whose: Whose,
    line: u32,
) -> Came {
    let Ok(mut store) = Store::new(alloc, &[]) else {
        return Refused;
    };
    let told = pendings.tell(alloc, whose, line, &mut store, tells);
    drop(store);
    match told {
        Ok(condition) => Waited(condition, tells.len(), pendings.entries().len()),
        Err(_) => Refused,
    }
}

/// What the answer to a question is.
fn asked(pendings: &Pendings, tells: &Items<Tell>, step: Step) -> Came {
    match step {
        Has(slot, number) => Is(pendings.has(slot, number)),
        Next(whose) => At(pendings.next_unsettled(whose, 0)),
        EndsHalt(whose, unit) => Is(pendings.ends_halt(whose, unit)),
        Reads(number) => Said(tells.get(number).copied()),
        _ => Refused,
    }
}

fn come_to(alloc: Global, pendings: &mut Pendings, tells: &mut Items<Tell>, step: Step) -> Came {
    match step {
        Enter(id, unit, slot, number) => {
            done_if(enter(pendings, alloc, (id, unit, slot, number)).is_ok())
        }
        Answered(slot, number, condition) => {
            done_if(pendings.answer(slot, number, told(condition)).is_ok())
        }
        Waits(whose, line) => wait(alloc, pendings, tells, whose, line),
        _ => asked(pendings, tells, step),
    }
}

/// The number of the first step that comes to something else.
fn other_step(
    alloc: Global,
    pendings: &mut Pendings,
    tells: &mut Items<Tell>,
    rows: &[(Step, Came)],
) -> Option<usize> {
    for (number, (step, came)) in rows.iter().enumerate() {
        if come_to(alloc, pendings, tells, *step) != *came {
            return Some(number);
        }
    }
    None
}

/// The same where there is no transfer before.
fn differs(alloc: Global, rows: &[(Step, Came)]) -> Result<Option<usize>, AllocError> {
    let mut pendings = Pendings::new(alloc, &[])?;
    let mut tells = Items::new(alloc);
    let other = other_step(alloc, &mut pendings, &mut tells, rows);
    drop(tells);
    drop(pendings);
    Ok(other)
}

static ANSWERED: [(Step, Came); 25] = [
    (Enter(1, 10, 0, 1), Done),
    (Enter(2, 20, 1, 1), Done),
    (Enter(3, 10, 0, 2), Done),
    // One with a lower identifier is refused, and so is one whose job has no greater number at its slot, and one at no slot.
    (Enter(3, 20, 1, 2), Refused),
    (Enter(4, 20, 1, 1), Refused),
    (Enter(4, 20, 16, 1), Refused),
    (Next(Whose::OfId(10, 3)), At(Some((0, 0)))),
    (Has(0, 2), Is(true)),
    (Has(1, 1), Is(true)),
    (Has(1, 2), Is(false)),
    (Has(2, 1), Is(false)),
    // The answers of two slots in any order; no transfer has the second number.
    (Answered(1, 1, Condition::Fine), Done),
    (Answered(0, 0, Condition::Fine), Refused),
    (Answered(0, 1, Condition::Fine), Done),
    (Next(Whose::OfUnit(10)), At(Some((2, 0)))),
    (Answered(0, 2, Condition::EndOfFile), Done),
    (Next(Whose::All), At(None)),
    (Has(0, 1), Is(true)),
    // A wait by an identifier that tells the end of the file is one for all of the unit.
    (EndsHalt(Whose::OfId(10, 3), 10), Is(true)),
    (EndsHalt(Whose::OfId(10, 1), 10), Is(false)),
    (
        Waits(Whose::OfId(10, 3), 7),
        Waited(Condition::EndOfFile, 2, 1),
    ),
    (Has(0, 1), Is(false)),
    (Has(1, 1), Is(true)),
    (
        Reads(0),
        Said(Some(Tell {
            line: 7,
            unit: 10,
            id: 1,
            condition: Condition::Fine,
        })),
    ),
    (Waits(Whose::All, 8), Waited(Condition::Fine, 3, 0)),
];

#[test]
fn tells_what_was_answered(rt: HostRuntime) -> Result<(), Fail> {
    assert_eq!(rt; differs(rt.alloc(), &ANSWERED), Ok(None));
    Ok(())
}

static OF_ONE_UNIT: [(Step, Came); 9] = [
    (Enter(1, 10, 0, 0), Done),
    (Next(Whose::OfUnit(20)), At(None)),
    (EndsHalt(Whose::All, 20), Is(false)),
    (Waits(Whose::OfUnit(20), 7), Waited(Condition::Fine, 0, 1)),
    (Next(Whose::OfUnit(10)), At(Some((0, 0)))),
    // All of the unit are told, and then it has one again.
    (Waits(Whose::OfUnit(10), 8), Waited(Condition::Fine, 1, 0)),
    (Next(Whose::OfUnit(10)), At(None)),
    (Enter(2, 10, 0, 2), Done),
    (Next(Whose::OfUnit(10)), At(Some((0, 0)))),
];

#[test]
fn a_unit_with_none_is_not_waited_for(rt: HostRuntime) -> Result<(), Fail> {
    assert_eq!(rt; differs(rt.alloc(), &OF_ONE_UNIT), Ok(None));
    Ok(())
}
