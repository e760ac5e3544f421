// What holds of all frames and values, each law the contract of a function with nothing to do.
ghost use Rattle.fj_unfrec.specs.FrameLaws.{AreFound};
ghost use Rattle.fj_unfrec.specs.Stored.{ComeBack};

/// A frame at the start or the end of bytes is found exactly where there is one.
pub fn frames_are_found()
    ensures { AreFound }
{}

/// What is read of the bytes of a value is the value.
pub fn values_come_back()
    ensures { ComeBack }
{}
