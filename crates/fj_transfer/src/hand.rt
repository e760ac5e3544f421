// The record at hand of an input, and where the next one is found (ISO/IEC 1539-1:2004, 9.2.3).
ghost use Rattle.std.specs.Prelude.{◌≡◌, ◌+◌, ◌<◌, ◌≤◌, ◌^◌, ◌↔◌, [], true, false, IfOk, List, ℕ};
ghost use Rattle.fj_outside.specs.Faults.{Rose};
ghost use Rattle.fj_modes.specs.Words.{same_access};
ghost use Rattle.fj_connect.specs.Connection.{between};
ghost use Rattle.fj_connect.specs.Linked.{connection_of};
ghost use Rattle.fj_connect.specs.Positions.{ended};
ghost use Rattle.fj_connect.specs.Spot.{size_ended};
ghost use Rattle.fj_transfer.specs.AtHand.{behind, line_at, record_numbered, next_record};
ghost use Rattle.fj_transfer.specs.Reader.{hand_of, found_of, IsHand, IsFound, IsIn, FitsIn};

use fj_connect::Connection;
use fj_modes::{Access, LONGEST_FILE};
use fj_outside::{FileStore, Stop};
use fj_seqrec::RecordRead;
use fj_value::{Condition, Text};
use std::alloc::Global;

/// Which record is at hand.
#[derive(Clone, Copy, Debug, PartialEq, Eq)]
pub enum Hand {
    /// One that begins at a place, with so many characters before the left tab limit, and the place behind it.
    Line { start: u64, skip: u64, next: u64 },
    /// The direct record of a number.
    Numbered { number: u64 },
}

/// A record with its characters from the left tab limit on, or the condition in place of one.
#[derive(Drop)]
pub enum Found {
    Here { hand: Hand, text: Text },
    Met { condition: Condition },
}

/// Looks for the record that begins at a place of the file as it is once its open record is ended. The connection stays.
pub fn line_at<F: FileStore>(
    alloc: Global,
    connection: &mut Connection<F>,
    place: u64,
) -> Result<Found, Stop>
    requires place { place ≤ size_ended connection.old.spot (F.size connection.old.file) }
    requires access { same_access connection.old.modes.access Access.Direct ≡ false }
    ensures telling { F.tells connection.old.file ↔ F.tells connection.new.file }
    ensures same { F.tells connection.old.file → F.bytes connection.new.file ≡ F.bytes connection.old.file }
    ensures found { F.tells connection.old.file → let c = ended (connection_of F.bytes connection.old) in
        IfOk result (λ found. found_of c found ≡ line_at (between c place)) }
    ensures hand { F.tells connection.old.file → IfOk result (λ found. IsFound (ended (connection_of F.bytes connection.old)) found) }

    // Told or not.
    ensures within { IfOk result (λ found. FitsIn connection.old.modes.access (size_ended connection.old.spot (F.size connection.old.file)) found) }
    ensures rest { connection.new ≡ record connection.old { file = connection.new.file; hand = connection.new.hand } }
    ensures size { F.size connection.new.file ≡ F.size connection.old.file }
    ensures later { F.count connection.old.file ≤ F.count connection.new.file }
    ensures failed { result ≡ Err Stop.Failed → Rose (F.count connection.old.file) (F.count connection.new.file) }
{
    match connection.look_as_ended(place)? {
        RecordRead::Line { next } => Ok(Found::Here {
            hand: Hand::Line {
                start: place,
                skip: 0,
                next,
            },
            text: Text::from_bytes(alloc, connection.hand())?,
        }),
        RecordRead::End => Ok(Found::Met {
            condition: Condition::EndOfFile,
        }),
        RecordRead::TooLong => Ok(Found::Met {
            condition: Condition::RECORD_TOO_LONG,
        }),
    }
}

/// Looks for the direct record of a number. The connection stays.
pub fn record_numbered<F: FileStore>(
    alloc: Global,
    connection: &mut Connection<F>,
    number: u64,
) -> Result<Found, Stop>
    requires number { 0 < number }
    requires near { number < 2 ^ 63 }
    requires access { same_access connection.old.modes.access Access.Direct ≡ true }
    ensures telling { F.tells connection.old.file ↔ F.tells connection.new.file }
    ensures same { F.tells connection.old.file → F.bytes connection.new.file ≡ F.bytes connection.old.file }
    ensures found { F.tells connection.old.file → let c = ended (connection_of F.bytes connection.old) in
        IfOk result (λ found. found_of c found ≡ record_numbered c number) }
    ensures hand { F.tells connection.old.file → IfOk result (λ found. IsFound (ended (connection_of F.bytes connection.old)) found) }

    // Told or not.
    ensures within { IfOk result (λ found. FitsIn connection.old.modes.access (size_ended connection.old.spot (F.size connection.old.file)) found) }
    ensures rest { connection.new ≡ record connection.old { file = connection.new.file; hand = connection.new.hand } }
    ensures size { F.size connection.new.file ≡ F.size connection.old.file }
    ensures later { F.count connection.old.file ≤ F.count connection.new.file }
    ensures failed { result ≡ Err Stop.Failed → Rose (F.count connection.old.file) (F.count connection.new.file) }
{
    let recl = connection.modes().recl;
    let size = connection.file_len();
    prove!(recl > 0 && size <= LONGEST_FILE);
    let mut text = Text::new(alloc);
    if connection.read_direct(number, &mut text)? {
        return Ok(Found::Here {
            hand: Hand::Numbered { number },
            text,
        });
    }
    Ok(Found::Met {
        condition: Condition::NO_SUCH_RECORD,
    })
}

/// Looks for the record behind the one at hand.
pub fn record_behind<F: FileStore>(
    alloc: Global,
    connection: &mut Connection<F>,
    hand: Hand,
) -> Result<Found, Stop>
    requires { IsIn connection.old.modes.access (size_ended connection.old.spot (F.size connection.old.file)) hand [] }
    ensures telling { F.tells connection.old.file ↔ F.tells connection.new.file }
    ensures same { F.tells connection.old.file → F.bytes connection.new.file ≡ F.bytes connection.old.file }
    ensures found { F.tells connection.old.file → let c = ended (connection_of F.bytes connection.old) in IsHand c hand →
        IfOk result (λ found. (text : List ℕ) → found_of c found ≡ next_record (behind (hand_of c hand text))) }
    ensures hand { F.tells connection.old.file → IfOk result (λ found. IsFound (ended (connection_of F.bytes connection.old)) found) }

    // Told or not.
    ensures within { IfOk result (λ found. FitsIn connection.old.modes.access (size_ended connection.old.spot (F.size connection.old.file)) found) }
    ensures rest { connection.new ≡ record connection.old { file = connection.new.file; hand = connection.new.hand } }
    ensures size { F.size connection.new.file ≡ F.size connection.old.file }
    ensures later { F.count connection.old.file ≤ F.count connection.new.file }
    ensures failed { result ≡ Err Stop.Failed → Rose (F.count connection.old.file) (F.count connection.new.file) }
{
    match hand {
        Hand::Line { next, .. } => line_at(alloc, connection, next),
        Hand::Numbered { number } => record_numbered(alloc, connection, number + 1),
    }
}
