// The exported calls. A handle lies in room of the caller's, which C sees as bytes.
ghost use Rattle.std.specs.Borrow.{sem};
ghost use Rattle.std.specs.Ptr.{lies_at, room_at};
ghost use base.Fraction.{full_share};
ghost use Rattle.fj_link.specs.contracts.handle.Handle.{the_row as HandleRow};
ghost use Rattle.fj_link.specs.Calls.{IsMade, Named, HasFormat, Opened, Wrote, WroteShort, Reads, Last, WaitedAll, WaitedOne, Gives, Closed, Left, Ended, Worked};
ghost use Rattle.std.specs.Prelude.{true, false};

use crate::handle::{
    Handle, close, ended, last, left, made, open_formatted, open_unformatted, read, read_short,
    set_format, set_name, values, wait_all, wait_one, work, write, write_short,
};
use fj_value::Kind;
use std::alloc::Global;
use std::mem::size_of;

/// The bytes of room that a caller has to have.
const ROOM: usize = 512;

const _: () = prove!(size_of::<Handle>() <= ROOM);

/// Makes a handle in the caller's room.
#[unsafe(no_mangle)]
pub unsafe extern "C" fn fj_link_begin(alloc: Global, at: *mut u8)
    requires* { sem 𝓛 (room_at HandleRow at) }
    ensures* { ∃ₛ (λ (after : Handle). sem 𝓛 (lies_at HandleRow full_share at after) ∗ ⌜ IsMade after ⌝) }
{
    std::ptr::write(at as *mut Handle, made(alloc))
}

/// Carries out one job that is pending. Any thread of the host may call it, one call on a handle at a time.
#[unsafe(no_mangle)]
pub unsafe extern "C" fn fj_link_work(at: *mut u8) -> u32
    ghost g: { Handle }
    requires* { sem 𝓛 (lies_at HandleRow full_share at g) }
    ensures* { ∃ₛ (λ (after : Handle). sem 𝓛 (lies_at HandleRow full_share at after) ∗ ⌜ Worked g after ⌝) }
{
    work(&mut *(at as *mut Handle))
}

/// FILE= of the OPEN that follows.
#[unsafe(no_mangle)]
pub unsafe extern "C" fn fj_link_name(at: *mut u8, alloc: Global, text: &[u8]) -> u32
    ghost g: { Handle }
    requires* { sem 𝓛 (lies_at HandleRow full_share at g) }
    ensures* { ∃ₛ (λ (after : Handle). sem 𝓛 (lies_at HandleRow full_share at after) ∗ ⌜ Named g text.now after result ⌝) }
{
    set_name(&mut *(at as *mut Handle), alloc, text)
}

/// FMT= of the transfers that follow; no text is an unformatted one.
#[unsafe(no_mangle)]
pub unsafe extern "C" fn fj_link_format(at: *mut u8, alloc: Global, text: &[u8]) -> u32
    ghost g: { Handle }
    requires* { sem 𝓛 (lies_at HandleRow full_share at g) }
    ensures* { ∃ₛ (λ (after : Handle). sem 𝓛 (lies_at HandleRow full_share at after) ∗ ⌜ HasFormat g text.now after result ⌝) }
{
    set_format(&mut *(at as *mut Handle), alloc, text)
}

/// OPEN of a file of these bytes for unformatted transfers.
#[unsafe(no_mangle)]
pub unsafe extern "C" fn fj_link_open_unformatted(at: *mut u8, alloc: Global, found: &[u8]) -> u32
    ghost g: { Handle }
    requires* { sem 𝓛 (lies_at HandleRow full_share at g) }
    ensures* { ∃ₛ (λ (after : Handle). sem 𝓛 (lies_at HandleRow full_share at after) ∗ ⌜ Opened false g found.now after result ⌝) }
{
    open_unformatted(&mut *(at as *mut Handle), alloc, found)
}

/// OPEN of a file of these bytes for formatted transfers.
#[unsafe(no_mangle)]
pub unsafe extern "C" fn fj_link_open_formatted(at: *mut u8, alloc: Global, found: &[u8]) -> u32
    ghost g: { Handle }
    requires* { sem 𝓛 (lies_at HandleRow full_share at g) }
    ensures* { ∃ₛ (λ (after : Handle). sem 𝓛 (lies_at HandleRow full_share at after) ∗ ⌜ Opened true g found.now after result ⌝) }
{
    open_formatted(&mut *(at as *mut Handle), alloc, found)
}

/// WRITE of an array of INTEGER(8), pending. The values are those at the call.
#[unsafe(no_mangle)]
pub unsafe extern "C" fn fj_link_write_8(at: *mut u8, alloc: Global, numbers: &[i64]) -> u32
    ghost g: { Handle }
    requires* { sem 𝓛 (lies_at HandleRow full_share at g) }
    ensures* { ∃ₛ (λ (after : Handle). sem 𝓛 (lies_at HandleRow full_share at after) ∗ ⌜ Wrote g numbers.now after result ⌝) }
{
    write(&mut *(at as *mut Handle), alloc, numbers)
}

/// WRITE of an array of INTEGER(4), pending. The values are those at the call.
#[unsafe(no_mangle)]
pub unsafe extern "C" fn fj_link_write_4(at: *mut u8, alloc: Global, numbers: &[i32]) -> u32
    ghost g: { Handle }
    requires* { sem 𝓛 (lies_at HandleRow full_share at g) }
    ensures* { ∃ₛ (λ (after : Handle). sem 𝓛 (lies_at HandleRow full_share at after) ∗ ⌜ WroteShort g numbers.now after result ⌝) }
{
    write_short(&mut *(at as *mut Handle), alloc, numbers)
}

/// CLOSE of a unit that has nothing pending.
#[unsafe(no_mangle)]
pub unsafe extern "C" fn fj_link_close(at: *mut u8) -> u32
    ghost g: { Handle }
    requires* { sem 𝓛 (lies_at HandleRow full_share at g) }
    ensures* { ∃ₛ (λ (after : Handle). sem 𝓛 (lies_at HandleRow full_share at after) ∗ ⌜ Closed g after result ⌝) }
{
    close(&mut *(at as *mut Handle))
}

/// Ends the handle: 1 where its unit was still connected. The room is the caller's again.
#[unsafe(no_mangle)]
pub unsafe extern "C" fn fj_link_end(at: *mut u8) -> u32
    ghost g: { Handle }
    requires* { sem 𝓛 (lies_at HandleRow full_share at g) }
    ensures* { sem 𝓛 (room_at HandleRow at) ∗ ⌜ Ended g result ⌝ }
{
    ended(std::ptr::read(at as *mut Handle))
}

/// READ of so many INTEGER(8), pending.
#[unsafe(no_mangle)]
pub unsafe extern "C" fn fj_link_read_8(at: *mut u8, count: u64) -> u32
    ghost g: { Handle }
    requires* { sem 𝓛 (lies_at HandleRow full_share at g) }
    ensures* { ∃ₛ (λ (after : Handle). sem 𝓛 (lies_at HandleRow full_share at after) ∗ ⌜ Reads Kind.Int8 g count after result ⌝) }
{
    read(&mut *(at as *mut Handle), count)
}

/// READ of so many INTEGER(4), pending.
#[unsafe(no_mangle)]
pub unsafe extern "C" fn fj_link_read_4(at: *mut u8, count: u64) -> u32
    ghost g: { Handle }
    requires* { sem 𝓛 (lies_at HandleRow full_share at g) }
    ensures* { ∃ₛ (λ (after : Handle). sem 𝓛 (lies_at HandleRow full_share at after) ∗ ⌜ Reads Kind.Int4 g count after result ⌝) }
{
    read_short(&mut *(at as *mut Handle), count)
}

/// The identifier of the transfer that was made pending last.
#[unsafe(no_mangle)]
pub unsafe extern "C" fn fj_link_last(at: *mut u8) -> u32
    ghost g: { Handle }
    requires* { sem 𝓛 (lies_at HandleRow full_share at g) }
    ensures* { ∃ₛ (λ (after : Handle). sem 𝓛 (lies_at HandleRow full_share at after) ∗ ⌜ Last g after result ⌝) }
{
    last(&mut *(at as *mut Handle))
}

/// WAIT without ID=, and the number of its condition.
#[unsafe(no_mangle)]
pub unsafe extern "C" fn fj_link_wait_all(at: *mut u8) -> u32
    ghost g: { Handle }
    requires* { sem 𝓛 (lies_at HandleRow full_share at g) }
    ensures* { ∃ₛ (λ (after : Handle). sem 𝓛 (lies_at HandleRow full_share at after) ∗ ⌜ WaitedAll g after result ⌝) }
{
    wait_all(&mut *(at as *mut Handle))
}

/// WAIT with ID=, and the number of its condition.
#[unsafe(no_mangle)]
pub unsafe extern "C" fn fj_link_wait_one(at: *mut u8, id: u32) -> u32
    ghost g: { Handle }
    requires* { sem 𝓛 (lies_at HandleRow full_share at g) }
    ensures* { ∃ₛ (λ (after : Handle). sem 𝓛 (lies_at HandleRow full_share at after) ∗ ⌜ WaitedOne g id after result ⌝) }
{
    wait_one(&mut *(at as *mut Handle), id)
}

/// Copies the values of a READ that the last WAIT told, where the array has as many elements: 1 where it did.
#[unsafe(no_mangle)]
pub unsafe extern "C" fn fj_link_values(at: *mut u8, id: u32, out: &mut [i64]) -> u32
    ghost g: { Handle }
    requires* { sem 𝓛 (lies_at HandleRow full_share at g) }
    ensures* { ∃ₛ (λ (after : Handle). sem 𝓛 (lies_at HandleRow full_share at after) ∗ ⌜ Gives g id after out.new result ⌝) }
{
    values(&mut *(at as *mut Handle), id, out)
}

/// How many bytes the file is to hold once the unit was closed; it copies them where there is room for just so many.
#[unsafe(no_mangle)]
pub unsafe extern "C" fn fj_link_left(at: *mut u8, alloc: Global, out: &mut [u8]) -> u64
    ghost g: { Handle }
    requires* { sem 𝓛 (lies_at HandleRow full_share at g) }
    ensures* { ∃ₛ (λ (after : Handle). sem 𝓛 (lies_at HandleRow full_share at after) ∗ ⌜ Left g after out.old out.new result ⌝) }
{
    left(&mut *(at as *mut Handle), alloc, out)
}
