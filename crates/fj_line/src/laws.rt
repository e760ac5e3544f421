// What holds of the records of all outputs.
ghost use Rattle.fj_line.specs.Line.{TextsAreOfMaps};
ghost use Rattle.fj_line.specs.Records.{RecordsAreTexts, OutputIsExact, NothingIsTooLong};

/// The text of a line is that of a map from positions to characters.
pub fn texts_are_of_maps()
    ensures { TextsAreOfMaps }
{}

/// The records are the texts of such maps, one for each part of the output between the ends of records (ISO/IEC
/// 1539-1:2004, 10.7.1).
pub fn records_are_texts()
    ensures { RecordsAreTexts }
{}

/// What fits is written. 15 comes exactly where a record does not fit, 26 exactly where the records fit and the bytes pass
/// their limit, and any other condition exactly where it is met first.
pub fn output_is_exact()
    ensures { OutputIsExact }
{}

/// Without a limit all is written.
pub fn nothing_is_too_long()
    ensures { NothingIsTooLong }
{}
