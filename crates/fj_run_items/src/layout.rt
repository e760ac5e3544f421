// The layout of a transfer, with the cells of its group.
ghost use Rattle.std.specs.Prelude.{List, ◌≡◌, ◌≤◌, ◌<◌, ◌^◌, ◌↔◌, length, IfOk, IsTrue, All};
ghost use Rattle.std.specs.List.{position_or_len};
ghost use Rattle.fj_namelist.specs.GroupText.{IsWithin};
ghost use Rattle.fj_meaning.specs.Transfers.{member_of, members_of, layout_of};
ghost use Rattle.fj_statement.specs.declared.deck.Variable.{Variable as AnyVariable};
ghost use Rattle.fj_value.specs.declared.value.Cell.{Cell as AnyCell};
ghost use Rattle.fj_run_items.specs.Shown.{IsOfItems};
ghost use Rattle.fj_store.specs.Places.{same_place};
ghost use Rattle.fj_store.specs.Variables.{is_at};
ghost use Rattle.fj_transfer.specs.Moving as moving;

use crate::assignment::elements;
use fj_moved::{GroupMember, Load, Shape};
use fj_statement::{Control, Variable, Variables};
use fj_store::position;
use fj_transfer::{Layout, Members};
use fj_value::{Cell, Place};
use std::alloc::{AllocError, Global};

/// A variable of a group.
fn member_of(cells: &[Cell], var: u32, variable: &Variable) -> Result<GroupMember, AllocError>
    requires { length cells.now < 2 ^ 32 }
    ensures { IfOk result (λ member. member ≡ member_of cells.now var variable.now) }
{
    let first = position(cells, Place { var, index: 1 });
    let name = variable.name.try_clone()?;
    Ok(GroupMember {
        name,
        kind: variable.kind,
        first: first as u32,
        count: elements(variable),
        scalar: variable.count == 0,
    })
}

/// The variables of a group.
fn members_of(
    alloc: Global,
    variables: &Variables,
    cells: &[Cell],
    vars: &[u32],
) -> Result<Members, AllocError>
    requires { length cells.now < 2 ^ 32 }
    ensures { IfOk result (λ members. members ≡ members_of variables.now cells.now vars.now) }
{
    let mut members = Members::new(alloc);
    for var in vars {
        if let Some(variable) = variables.get(*var as usize) {
            members.push(member_of(cells, *var, variable)?)?;
        }
    }
    Ok(members)
}

/// The same in what a transfer moves.
fn members_among(
    alloc: Global,
    variables: &Variables,
    moved: &Load,
    vars: &[u32],
) -> Result<Members, AllocError>
    requires { length moved.now.cells < 2 ^ 32 }
    ensures { IfOk result (λ members. members ≡ members_of variables.now moved.now.cells vars.now) }
{
    match moved.shape() {
        Shape::Cells(moved) => members_of(alloc, variables, moved.cells.as_slice(), vars),
        Shape::Row(row) => {
            let moved = row.to_moved(alloc)?;
            members_of(alloc, variables, moved.cells.as_slice(), vars)
        }
    }
}

/// The layout of a transfer of items alone.
pub(crate) fn layout_of_items(control: &Control) -> Result<Layout, AllocError>
    requires { IsOfItems control.now }
    ensures { IfOk result (λ layout. (variables : List AnyVariable) (cells : List AnyCell) → layout ≡ layout_of variables cells control.now) }
{
    match control {
        Control::Explicit(format) => {
            let format = format.try_clone()?;
            Ok(Layout::Explicit(format))
        }
        Control::Listed => Ok(Layout::Listed),
        Control::Unformatted | Control::Group { .. } => unreachable!(),
    }
}

/// The layout of a transfer with these cells.
#[inline(always)]
pub(crate) fn layout_for(
    alloc: Global,
    variables: &Variables,
    moved: &Load,
    control: &Control,
) -> Result<Layout, AllocError>
    requires { length moved.now.cells < 2 ^ 32 }
    ensures { IfOk result (λ layout. layout ≡ layout_of variables.now moved.now.cells control.now) }
{
    match control {
        Control::Unformatted => Ok(Layout::Unformatted),
        Control::Explicit(_) | Control::Listed => layout_of_items(control),
        Control::Group { name, vars } => {
            let members = members_among(alloc, variables, moved, vars.as_slice())?;
            let name = name.try_clone()?;
            Ok(Layout::Group(name, members))
        }
    }
}

fn are_within(cells: usize, members: &[GroupMember]) -> bool
    ensures { IsTrue result ↔ All (IsWithin cells) members.now }
{
    for member in members {
        if member.first as u64 + member.count as u64 > cells as u64 {
            return false;
        }
    }
    true
}

/// Whether the variables of a group have their cells among so many.
pub(crate) fn is_grouped(cells: usize, layout: &Layout) -> bool
    ensures { IsTrue result ↔ All (IsWithin cells) (moving.members_of layout.now) }
{
    match layout {
        Layout::Group(_, members) => are_within(cells, members.as_slice()),
        _ => true,
    }
}
