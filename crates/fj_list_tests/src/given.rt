// Records, kinds by letters, and what cells of a kind begin with.
use fj_list::MemoryRecords;
use fj_value::{Items, Kind, Text, Value};
use std::alloc::{AllocError, Global};

pub(crate) fn records_of(alloc: Global, text: &str) -> Result<MemoryRecords, AllocError> {
    let mut records = Items::new(alloc);
    for line in text.lines() {
        records.push(Text::from_bytes(alloc, line.as_bytes())?)?;
    }
    Ok(MemoryRecords {
        records,
        looked_at: 0,
        ending: None,
    })
}

pub(crate) fn kind_of(letter: u8) -> Kind {
    match letter {
        b'i' => Kind::Int4,
        b'j' => Kind::Int8,
        b'l' => Kind::Logical,
        digit => Kind::Chars(u32::from(digit.saturating_sub(b'0'))),
    }
}

pub(crate) fn initial(alloc: Global, kind: Kind) -> Result<Value, AllocError> {
    match kind {
        Kind::Int4 | Kind::Int8 => Ok(Value::Int(1)),
        Kind::Logical => Ok(Value::Log(false)),
        Kind::Chars(length) => {
            let mut text = Text::new(alloc);
            text.push_copies(b'#', length)?;
            Value::of_text(text)
        }
    }
}
