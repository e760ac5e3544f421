// The limits that the standard leaves to the processor.
ghost use Rattle.std.specs.Prelude.{◌≡◌};
ghost use Rattle.fj_modes.specs.Limits.{longest_formatted, longest_unformatted, longest_file};

/// The longest formatted record, in characters.
pub const LONGEST_FORMATTED: u32 = 65_536;

/// The longest unformatted record, in bytes.
pub const LONGEST_UNFORMATTED: u32 = 16_777_216;

/// The longest file, in bytes.
pub const LONGEST_FILE: u64 = 268_435_456;

/// The constants are the limits that the definitions name.
pub fn limits_are_named()
    ensures formatted { LONGEST_FORMATTED ≡ longest_formatted }
    ensures unformatted { LONGEST_UNFORMATTED ≡ longest_unformatted }
    ensures file { LONGEST_FILE ≡ longest_file }
{}
