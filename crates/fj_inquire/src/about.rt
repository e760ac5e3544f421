// What a statement asks about (ISO/IEC 1539-1:2004, 9.9).

use crate::connected::Connected;
use fj_connect::Look;
use fj_modes::FileName;

/// A connection of a unit, with a look at it and whether the transfer in question is pending; a unit with no connection;
/// or a file with none.
#[derive(Clone, Copy)]
pub(crate) enum About<'a> {
    Connection(i64, &'a Connected, Option<Look>, bool),
    Unit,
    File(&'a FileName, bool),
}
