// What holds of all transfers, each law the contract of a function with nothing to do.
ghost use Rattle.fj_transfer.specs.Explicit.{ItemsAreInOrder};
ghost use Rattle.fj_transfer.specs.TransferLaws.{DirectRecordsStandApart, StreamOutputKeepsTheOthers, UnformattedRecordsComeBack, ErrorsLeaveTheConnection};

/// Each item is written under a data descriptor, in the order of the items, unless a data descriptor is wanting.
pub fn items_are_in_order()
    ensures { ItemsAreInOrder }
{}

/// A direct WRITE puts its record and leaves every other one.
pub fn direct_records_stand_apart()
    ensures { DirectRecordsStandApart }
{}

/// Unformatted output of a stream leaves the bytes before and behind what it writes.
pub fn stream_output_keeps_the_others()
    ensures { StreamOutputKeepsTheOthers }
{}

/// An unformatted record is read as the values that were written.
pub fn unformatted_records_come_back()
    ensures { UnformattedRecordsComeBack }
{}

/// An error leaves the connection.
pub fn errors_leave_the_connection()
    ensures { ErrorsLeaveTheConnection }
{}
