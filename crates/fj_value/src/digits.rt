// Laws of digits and of two's complement.
ghost use Rattle.fj_value.specs.Digits.{DigitsAreUnique, NumeralsAreRead, TwosComplementIsExact};

/// Each number has one list of digits without leading zeros in each base, and it is the number's positional value.
pub fn digits_are_unique()
    ensures { DigitsAreUnique }
{}

/// The characters of a number above 0 are read as that number, in each base from 2 to 36.
pub fn numerals_are_read()
    ensures { NumeralsAreRead }
{}

/// The numbers from -2^(bits-1) to 2^(bits-1)-1 and those below 2^bits belong to one another.
pub fn twos_complement_is_exact()
    ensures { TwosComplementIsExact }
{}
