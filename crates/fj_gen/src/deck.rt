// The text of a deck that is made.
ghost use Rattle.std.specs.Prelude.{◌≡◌, ◌≤◌, ◌++◌, IfOk, OnOk};
ghost use Rattle.fj_gen.specs.Generated.{opening_text, waits_text, closing_text, waits_after, output_text, transfer_text, generated_text};

use crate::draws::{drawn, next_state};
use fj_value::Text;
use itoa::Buffer;
use std::alloc::{AllocError, Global};

#[tactic(auto, unfolding(crate::specs::Generated::opening_text))]
fn opening() -> &'static [u8]
    ensures { result.now ≡ opening_text }
{
    b"INTEGER V(4)\nOPEN(10,FILE='G10',STATUS='REPLACE',ASYNCHRONOUS='YES')\nOPEN(11,FILE='G11',STATUS='REPLACE',ASYNCHRONOUS='YES')\n"
}

#[tactic(auto, unfolding(crate::specs::Generated::waits_text))]
fn waits() -> &'static [u8]
    ensures { result.now ≡ waits_text }
{
    b"WAIT(10)\nWAIT(11)\n"
}

#[tactic(auto, unfolding(crate::specs::Generated::closing_text))]
fn closing() -> &'static [u8]
    ensures { result.now ≡ closing_text }
{
    b"CLOSE(10)\nCLOSE(11)\nEND\n"
}

/// The waits that stand behind so many transfers.
fn push_waits(count: u32, text: &mut Text) -> Result<(), AllocError>
    ensures { OnOk result (text.new ≡ text.old ++ waits_after count) }
{
    if count > 0 && count % 4 == 0 {
        text.push_all(waits())
    } else {
        Ok(())
    }
}

/// An element gets a value, and is written to a unit.
fn push_output(element: u32, unit: u32, value: u32, text: &mut Text) -> Result<(), AllocError>
    ensures { OnOk result (text.new ≡ text.old ++ output_text element unit value) }
{
    let mut buffer = Buffer::new();
    text.push_all(b"V(")?;
    text.push_all(buffer.format(element).as_bytes())?;
    text.push_all(b") = ")?;
    text.push_all(buffer.format(value).as_bytes())?;
    text.push_all(b"\nWRITE(")?;
    text.push_all(buffer.format(unit).as_bytes())?;
    text.push_all(b",'(I6)',ASYNCHRONOUS='YES') V(")?;
    text.push_all(buffer.format(element).as_bytes())?;
    text.push_all(b")\n")
}

/// The transfer behind `count` others, from two draws.
fn push_transfer(count: u32, first: u32, second: u32, text: &mut Text) -> Result<(), AllocError>
    ensures { OnOk result (text.new ≡ text.old ++ transfer_text count first second) }
{
    push_waits(count, text)?;
    push_output(count % 4 + 1, 10 + first % 2, second % 1000, text)
}

/// The deck of so many transfers, with the draws from a seed on.
pub fn generate(alloc: Global, seed: u32, count: u32) -> Result<Text, AllocError>
    ensures { IfOk result (λ text. text ≡ generated_text seed count) }
{
    let mut text = Text::from_bytes(alloc, opening())?;
    let mut state = seed;
    for before in 0..count {
        let first = next_state(state);
        let second = next_state(first);
        push_transfer(before, drawn(first), drawn(second), &mut text)?;
        state = second;
    }
    text.push_all(closing())?;
    Ok(text)
}
