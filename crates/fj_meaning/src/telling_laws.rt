// A law on the condition of a statement that tells transfers.
ghost use Rattle.fj_meaning.specs.TellingLaws.{GravestIsTold};

/// The first error that is told; without one the end of the file, without that end-of-record, else fine.
pub fn gravest_is_told()
    ensures { GravestIsTold }
{}
