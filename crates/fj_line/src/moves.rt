// Moves of the position in a line, and how far they go (ISO/IEC 1539-1:2004, 10.7.1.1 and 10.7.1.2).
ghost use Rattle.std.specs.Prelude.{◌≡◌, ◌≤◌, ◌^◌};
ghost use Rattle.fj_line.specs.Line.{position_behind};

/// The most bytes that a statement may write, a line feed for each record among them, and so the most characters of a line.
pub const MOST_BYTES: u64 = 16_777_216;

/// The farthest position: a move that would pass it ends there.
const FARTHEST: u64 = 4_611_686_018_427_387_904;

/// A move of the position.
#[derive(Clone, Copy, PartialEq, Eq)]
pub enum Move {
    /// `Tn`: to the n-th character, from 1 on, counted from the left tab limit.
    To(u32),
    /// `TLn`: so many characters back, but not before the left tab limit.
    Back(u32),
    /// `TRn` or `nX`: so many characters forward.
    Ahead(u32),
}

impl Move {
    /// The position behind the move.
    pub fn from(self, at: u64) -> u64
        requires { at ≤ 2 ^ 63 }
        ensures value { result ≡ position_behind self at }
        ensures near { result ≤ 2 ^ 63 }
    {
        match self {
            Move::To(n) => u64::from(n.saturating_sub(1)),
            Move::Back(n) => at.saturating_sub(u64::from(n)),
            Move::Ahead(n) => (at + u64::from(n)).min(FARTHEST),
        }
    }
}
