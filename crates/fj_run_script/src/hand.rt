// The ask at hand.
/// The ask that is not answered.
#[derive(Clone, Copy, PartialEq, Eq)]
pub(crate) enum Hand {
    Idle,
    Submitting(u32),
    Settling(u32),
}
