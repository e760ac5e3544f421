//! What holds of whole transfers: records read in pieces, what is written and read again, and that values are of their kinds (ISO/IEC 1539-1:2004, 9.5, 10.1).
#![tactic(auto)]

ghost use Rattle.fj_transfer_laws.specs.Pieces.{PiecesAreOneRead};
ghost use Rattle.fj_transfer_laws.specs.RoundTrip.{FormattedRecordsComeBack, RecordsAreReached};
ghost use Rattle.fj_transfer_laws.specs.Numbered.{NumberedRecordsStandApart, NumberedRecordsComeBack};
ghost use Rattle.fj_transfer_laws.specs.Listed.{ListedRecordsComeBack, GroupRecordsComeBack};
ghost use Rattle.fj_transfer_laws.specs.Unformatted.{SequentialRecordsComeBack, DirectRecordsComeBack, StreamBytesComeBack};
ghost use Rattle.fj_transfer_laws.specs.Kinds.{ValuesAreOfTheirKinds};

use fj_list::records_are_listed;

/// A record that nonadvancing READs read in pieces gives the values that one READ takes, whose format is theirs one behind another, and
/// leaves the connection where that READ does.
pub fn pieces_are_one_read()
    ensures { PiecesAreOneRead }
{}

/// What a WRITE puts under a format of fields, X and slashes is read under the same format as the values that were written.
pub fn formatted_records_come_back()
    ensures { FormattedRecordsComeBack }
{}

/// As many BACKSPACEs as a WRITE put records go to where the first of them begins, and a REWIND where it is the first of the file.
pub fn records_are_reached()
    ensures { RecordsAreReached }
{}

/// A direct WRITE under a format puts its records one behind another, filled up with blanks, and leaves every other one.
pub fn numbered_records_stand_apart()
    ensures { NumberedRecordsStandApart }
{}

/// A direct READ under the format of a direct WRITE of the same number gives the values that were written.
pub fn numbered_records_come_back()
    ensures { NumberedRecordsComeBack }
{}

/// What a list-directed WRITE puts with delimiters is read as its values.
pub fn listed_records_come_back()
    ensures { ListedRecordsComeBack }
{
    records_are_listed();
}

/// What a namelist WRITE puts with delimiters is read as the values of its variables.
pub fn group_records_come_back()
    ensures { GroupRecordsComeBack }
{}

/// An unformatted record of sequential access is read behind a BACKSPACE as the values that were written.
pub fn sequential_records_come_back()
    ensures { SequentialRecordsComeBack }
{}

/// An unformatted direct record is read as the values that were written, and each other one is left.
pub fn direct_records_come_back()
    ensures { DirectRecordsComeBack }
{}

/// Unformatted output of a stream is read from where it began, and the bytes before and behind it are left.
pub fn stream_bytes_come_back()
    ensures { StreamBytesComeBack }
{}

/// What a READ or WRITE leaves in its cells is undefined or of their kinds, where it was so before.
pub fn values_are_of_their_kinds()
    ensures { ValuesAreOfTheirKinds }
{}
