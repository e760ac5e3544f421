// What a batch prints, and how it is answered.
ghost use Rattle.std.specs.Prelude.{◌≡◌, ◌≤◌, ◌++◌, ◌↔◌, IfOk, OnOk, max};
ghost use Rattle.std.specs.List.{flat_map, count_by};
ghost use Rattle.fj_batch.specs.Bytes.{usage_text, is_ended, member_text, ended_count, last_line, batch_text};
ghost use Rattle.fj_batch.specs.Members.{exit_of, greatest_exit};

use crate::member::Member;
use fj_exit::exit_status;
use fj_job::Status;
use fj_value::Text;
use itoa::Buffer;
use std::alloc::{AllocError, Global};

/// The line for words that are no form, or do not fit the members.
#[tactic(auto, unfolding(crate::specs::Bytes::usage_text))]
pub(crate) fn usage() -> &'static [u8]
    ensures { result.now ≡ usage_text }
{
    b"usage: fjob batch [--workers N] NAME..\n"
}

fn is_ended(status: Option<Status>) -> bool
    ensures { result ≡ is_ended status }
{
    matches!(status, Some(Status::Ended))
}

fn exit_of(status: Option<Status>) -> u8
    ensures { result ≡ exit_of status }
{
    match status {
        Some(status) => exit_status(status),
        None => 0,
    }
}

/// The greatest exit status of members.
pub(crate) fn greatest_exit<R, D>(members: &[Member<R, D>]) -> u8
    ensures { result ≡ greatest_exit members.now }
{
    match members {
        [] => 0,
        [member, members @ ..] => exit_of(member.status).max(greatest_exit(members)),
    }
}

/// How many members ended.
fn ended_count<R, D>(members: &[Member<R, D>]) -> usize
    ensures { result ≡ ended_count members.now }
{
    members
        .iter()
        .filter(|member| is_ended(member.status))
        .count()
}

/// Adds a member's name in a line, and its bytes.
fn push_member<R, D>(text: &mut Text, member: &Member<R, D>) -> Result<(), AllocError>
    ensures { OnOk result (text.new ≡ text.old ++ member_text member.now) }
{
    text.push_all(b"% ")?;
    text.push_all(member.name.bytes())?;
    text.push_all(b"\n")?;
    text.push_all(member.out.taken())
}

/// Adds how many members there are, and how many ended.
#[tactic(auto, unfolding(crate::specs::Bytes::last_line))]
fn push_last<R, D>(text: &mut Text, members: &[Member<R, D>]) -> Result<(), AllocError>
    ensures { OnOk result (text.new ≡ text.old ++ last_line members.now) }
{
    let mut count = Buffer::new();
    let mut ended = Buffer::new();
    text.push_all(b"= batch ")?;
    text.push_all(count.format(members.len()).as_bytes())?;
    text.push_all(b" decks, ")?;
    text.push_all(ended.format(ended_count(members)).as_bytes())?;
    text.push_all(b" ended\n")
}

/// The bytes of a batch.
pub(crate) fn batch_text<R, D>(alloc: Global, members: &[Member<R, D>]) -> Result<Text, AllocError>
    ensures { IfOk result (λ text. text ≡ batch_text members.now) }
{
    let mut text = Text::new(alloc);
    'adding: for member in members {
        push_member(&mut text, member)?;
    }
    push_last(&mut text, members)?;
    Ok(text)
}
