// What holds of all bytes and their lines, each law the contract of a function with nothing to do.
ghost use Rattle.fj_seqrec.specs.LineLaws.{PutTogether, BeginWithTheFirst, EndWithTheLast, AreTheLinesBehind};

/// The lines of bytes, put together with their ends, are the bytes; no other lines are.
pub fn lines_put_together()
    ensures { PutTogether }
{}

/// The lines of bytes are the first one and the lines behind it.
pub fn lines_begin_with_the_first()
    ensures { BeginWithTheFirst }
{}

/// The lines of bytes are those before the last one, and the last one.
pub fn lines_end_with_the_last()
    ensures { EndWithTheLast }
{}

/// The lines of the text of records, behind whole lines, are those lines and the records.
#[tactic(auto, using(crate::proofs::LastLine::lines_behind))]
pub fn records_are_the_lines_behind()
    ensures { AreTheLinesBehind }
{}
