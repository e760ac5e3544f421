// The values of items as the bytes of unformatted records (ISO/IEC 1539-1:2004, 9.5.3.4.1).
ghost use Rattle.std.specs.List.{flat_map};
ghost use Rattle.std.specs.Prelude.{◌≡◌, ◌<◌, ◌≤◌, ◌++◌, [], ◌∷◌, length, take, nat_le, if◌then◌else◌, Some, None, OnOk, IfOk, All};
ghost use Rattle.fj_unfrec.specs.Frames.{framed};
ghost use Rattle.fj_unfrec.specs.Stored.{stored, stored_width, value_of};
ghost use Rattle.fj_moved.specs.Cells.{kind_at, places_of, with_value};
ghost use Rattle.fj_moved.specs.Moved.{IsOrdered};
ghost use Rattle.fj_transfer.specs.Transfer.{widths, bytes_of, body_of, values_from};

use crate::room::record_room;
use fj_moved::{Cells, Load, Shape, define};
use fj_unfrec::{get_value, put_value};
use fj_value::{Cell, Kind, Text, Value};
use std::alloc::{AllocError, Global};

/// How many bytes a value of a kind takes.
fn stored_width(kind: Kind) -> u32
    ensures { result ≡ stored_width kind }
{
    match kind {
        Kind::Int4 | Kind::Logical => 4,
        Kind::Int8 => 8,
        Kind::Chars(length) => length,
    }
}

/// The kind of a cell.
pub fn kind_at(cells: &[Cell], at: u32) -> Kind
    requires { at < length cells.now }
    ensures { result ≡ kind_at cells.now at }
{
    cells[at as usize].kind
}

/// How many bytes the items take, where they are at most so many.
pub fn needed(cells: &[Cell], order: &[u32], most: u64) -> Option<u64>
    requires { All (λ at. at < length cells.now) order.now }
    ensures { result ≡ (if nat_le (widths cells.now order.now) most then Some (widths cells.now order.now) else None) }
{
    let mut left = most;
    for at in order {
        let width = u64::from(stored_width(kind_at(cells, *at)));
        if width > left {
            return None;
        }
        left -= width;
    }
    Some(most - left)
}

/// Adds the bytes of a cell's value.
fn put_item(cells: &[Cell], at: u32, out: &mut Text) -> Result<(), AllocError>
    requires { at < length cells.now }
    ensures { OnOk result (out.new ≡ out.old ++ bytes_of cells.now (at ∷ [])) }
{
    let cell = &cells[at as usize];
    put_value(cell.kind, &cell.value, out)
}

/// Adds the bytes of the items' values, in their order.
fn put_items(cells: &[Cell], order: &[u32], out: &mut Text) -> Result<(), AllocError>
    requires { All (λ at. at < length cells.now) order.now }
    ensures { OnOk result (out.new ≡ out.old ++ bytes_of cells.now order.now) }
{
    for at in order {
        put_item(cells, *at, out)?;
    }
    Ok(())
}

/// Adds the bytes of the values of a row.
fn put_row(kind: Kind, values: &[Value], out: &mut Text) -> Result<(), AllocError>
    ensures { OnOk result (out.new ≡ out.old ++ flat_map (stored kind) values.now) }
{
    for value in values {
        put_value(kind, value, out)?;
    }
    Ok(())
}

/// Adds the bytes of an output's values.
fn put_load(moved: &Load, out: &mut Text) -> Result<(), AllocError>
    requires { IsOrdered moved.now }
    ensures { OnOk result (out.new ≡ out.old ++ body_of moved.now) }
{
    match moved.shape() {
        Shape::Cells(moved) => put_items(moved.cells.as_slice(), moved.order.as_slice(), out),
        Shape::Row(row) => put_row(row.kind, row.values.as_slice(), out),
    }
}

/// The bytes of an output's values, which are the body of its record (ISO/IEC 1539-1:2004, 9.5.3.4.1).
pub fn body_of(alloc: Global, moved: &Load) -> Result<Text, AllocError>
    requires { IsOrdered moved.now }
    ensures { IfOk result (λ body. body ≡ body_of moved.now) }
{
    let mut body = record_room(alloc)?;
    put_load(moved, &mut body)?;
    Ok(body)
}

/// The same as a whole record of sequential access, with its length in four bytes before and after it.
pub fn frame_of(alloc: Global, moved: &Load) -> Result<Text, AllocError>
    requires { IsOrdered moved.now }
    ensures { IfOk result (λ frame. frame ≡ framed (body_of moved.now)) }
{
    let mut frame = record_room(alloc)?;
    frame.push_all(&[0; 4])?;
    put_load(moved, &mut frame)?;
    let length = (frame.len() as u64 - 4).to_le_bytes();
    frame.write_over(0, &length[..4]);
    frame.push_all(&length[..4])?;
    Ok(frame)
}

/// Gives a cell its value out of the front of some bytes, and answers how many it takes.
fn get_item(alloc: Global, cells: &mut Cells, at: u32, bytes: &[u8]) -> Result<usize, AllocError>
    requires there { at < length cells.old }
    requires enough { stored_width (kind_at cells.old at) ≤ length bytes.now }
    ensures value { IfOk result (λ width. (width ≡ stored_width (kind_at cells.old at))
        × (cells.new ≡ with_value cells.old at (value_of (kind_at cells.old at) (take width bytes.now)))) }
    ensures places { places_of cells.new ≡ places_of cells.old }
    ensures count { length cells.new ≡ length cells.old }
{
    let kind = kind_at(cells.as_slice(), at);
    let width = stored_width(kind) as usize;
    let mut value = Value::Undefined;
    get_value(alloc, kind, &bytes[..width], &mut value)?;
    define(cells, at as usize, value);
    Ok(width)
}

/// Gives the items their values out of bytes, one after another.
pub fn get_items(
    alloc: Global,
    cells: &mut Cells,
    order: &[u32],
    bytes: &[u8],
) -> Result<(), AllocError>
    requires ordered { All (λ at. at < length cells.old) order.now }
    requires enough { widths cells.old order.now ≤ length bytes.now }
    ensures values { OnOk result (cells.new ≡ values_from cells.old order.now bytes.now) }
    ensures places { places_of cells.new ≡ places_of cells.old }
{
    let mut from = 0;
    for at in order {
        from += get_item(alloc, cells, *at, &bytes[from..])?;
    }
    Ok(())
}
