// Where the parts of a statement meet of which one defines and another defines or transfers.

use crate::spot::{Spot, push_file, push_items};
use fj_modes::Question;
use fj_statement::Statement;
use fj_value::Place;
use std::alloc::{AllocError, Global};

/// A specifier that defines a place.
#[derive(Clone, Copy)]
pub enum Definer {
    NewUnit,
    Id,
    Size,
    Iostat,
    Answer(Question),
}

impl Definer {
    pub fn name(self) -> &'static str {
        match self {
            Definer::NewUnit => "NEWUNIT",
            Definer::Id => "ID",
            Definer::Size => "SIZE",
            Definer::Iostat => "IOSTAT",
            Definer::Answer(question) => question_name(question),
        }
    }
}

/// What meets in a place.
#[derive(Clone, Copy)]
pub enum Meeting {
    /// Two specifiers.
    Specifiers(Definer, Definer),
    /// A specifier and an item or a member of the group.
    Item(Definer),
    /// An item and the internal file.
    File,
}

fn push_named(
    named: &mut Vec<(Definer, Place)>,
    name: Definer,
    place: Option<Place>,
) -> Result<(), AllocError> {
    match place {
        Some(place) => Ok(named.push((name, place))?),
        None => Ok(()),
    }
}

fn question_name(question: Question) -> &'static str {
    match question {
        Question::Exist => "EXIST",
        Question::Opened => "OPENED",
        Question::Number => "NUMBER",
        Question::Named => "NAMED",
        Question::Name => "NAME",
        Question::Access => "ACCESS",
        Question::Form => "FORM",
        Question::Recl => "RECL",
        Question::Nextrec => "NEXTREC",
        Question::Pos => "POS",
        Question::Size => "SIZE",
        Question::Blank => "BLANK",
        Question::Delim => "DELIM",
        Question::Pad => "PAD",
        Question::Decimal => "DECIMAL",
        Question::Sign => "SIGN",
        Question::Action => "ACTION",
        Question::Asynchronous => "ASYNCHRONOUS",
        Question::Pending => "PENDING",
    }
}

/// The specifiers of a statement that define places.
fn specifiers(alloc: Global, statement: &Statement) -> Result<Vec<(Definer, Place)>, AllocError> {
    let mut named = Vec::new(alloc);
    match statement {
        Statement::OpenUnit { unit, iostat, .. } => {
            push_named(&mut named, Definer::NewUnit, unit.place_new())?;
            push_named(&mut named, Definer::Iostat, *iostat)?;
        }
        Statement::Inquire { asked, iostat, .. } => {
            for wanted in asked.as_slice() {
                push_named(&mut named, Definer::Answer(wanted.what), Some(wanted.place))?;
            }
            push_named(&mut named, Definer::Iostat, *iostat)?;
        }
        Statement::Transfer(transfer) => {
            push_named(&mut named, Definer::Id, transfer.id)?;
            push_named(&mut named, Definer::Size, transfer.size)?;
            push_named(&mut named, Definer::Iostat, transfer.iostat)?;
        }
        _ => {}
    }
    Ok(named)
}

/// Two specifiers that define one place.
fn twice(named: &[(Definer, Place)]) -> Option<(Spot, Meeting)> {
    for (at, (name, place)) in named.iter().enumerate() {
        for (other, another) in &named[..at] {
            if another == place {
                return Some((Spot::of(*place), Meeting::Specifiers(*other, *name)));
            }
        }
    }
    None
}

/// Of two spots that meet the smaller one.
fn smaller(one: Spot, other: Spot) -> Spot {
    if one.index == 0 { other } else { one }
}

fn with_items(named: &[(Definer, Place)], items: &[Spot]) -> Option<(Spot, Meeting)> {
    for (name, place) in named {
        let spot = Spot::of(*place);
        for item in items {
            if item.meets(spot) {
                return Some((spot, Meeting::Item(*name)));
            }
        }
    }
    None
}

fn in_file(items: &[Spot], file: &[Spot]) -> Option<(Spot, Meeting)> {
    for item in items {
        for part in file {
            if item.meets(*part) {
                return Some((smaller(*item, *part), Meeting::File));
            }
        }
    }
    None
}

/// The first place in which parts of a statement meet.
pub fn find_meeting(
    alloc: Global,
    statement: &Statement,
) -> Result<Option<(Spot, Meeting)>, AllocError> {
    let named = specifiers(alloc, statement)?;
    let found = twice(&named);
    if found.is_some() {
        return Ok(found);
    }
    let Statement::Transfer(transfer) = statement else {
        return Ok(None);
    };
    let mut items = Vec::new(alloc);
    push_items(&mut items, transfer)?;
    let found = with_items(&named, &items);
    if found.is_some() {
        return Ok(found);
    }
    let mut file = Vec::new(alloc);
    push_file(&mut file, transfer.unit)?;
    Ok(in_file(&items, &file))
}
