// Values as the bytes of unformatted records.
ghost use Rattle.std.specs.Prelude.{◌≡◌, ◌++◌, length, OnOk, OnErr};
ghost use Rattle.fj_unfrec.specs.Stored.{stored, stored_width, value_of};

use fj_value::{Kind, Text, Value};
use std::alloc::{AllocError, Global};

/// Adds the bytes of a value of a kind (ISO/IEC 1539-1:2004, 9.5.3.4.1): 4 or 8 of a number, the least first, 4 of a logical, the
/// characters themselves. A value of another type has none, nor has a number that does not fit INTEGER(4). Want of memory changes
/// nothing.
pub fn put_value(kind: Kind, value: &Value, out: &mut Text) -> Result<(), AllocError>
    ensures ok { OnOk result (out.new ≡ out.old ++ stored kind value.now) }
    ensures err { OnErr result (out.new ≡ out.old) }
{
    match (kind, value) {
        (Kind::Int4, Value::Int(number)) => match i32::try_from(*number) {
            Ok(number) => out.push_all(&number.to_le_bytes()),
            Err(_) => Ok(()),
        },
        (Kind::Int8, Value::Int(number)) => out.push_all(&number.to_le_bytes()),
        (Kind::Logical, Value::Log(truth)) => out.push_all(&u32::from(*truth).to_le_bytes()),
        (Kind::Chars(_), Value::Chars(text)) => out.push_all(text.bytes()),
        _ => Ok(()),
    }
}

/// Makes the value of a kind that bytes are (ISO/IEC 1539-1:2004, 9.5.3.4.1); there are as many as the kind takes. Want of memory
/// changes nothing.
pub fn get_value(alloc: Global, kind: Kind, bytes: &[u8], out: &mut Value) -> Result<(), AllocError>
    requires { length bytes.now ≡ stored_width kind }
    ensures ok { OnOk result (out.new ≡ value_of kind bytes.now) }
    ensures err { OnErr result (out.new ≡ out.old) }
{
    *out = match kind {
        Kind::Int4 => Value::Int(i64::from(i32::from_le_bytes([
            bytes[0], bytes[1], bytes[2], bytes[3],
        ]))),
        Kind::Int8 => Value::Int(i64::from_le_bytes([
            bytes[0], bytes[1], bytes[2], bytes[3], bytes[4], bytes[5], bytes[6], bytes[7],
        ])),
        Kind::Logical => Value::Log(
            u32::from_le_bytes([bytes[0], bytes[1], bytes[2], bytes[3]]) != 0,
        ),
        Kind::Chars(_) => Value::of_text(Text::from_bytes(alloc, bytes)?)?,
    };
    Ok(())
}
