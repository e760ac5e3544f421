// What is known of the pending transfers of a slot, so that an answer finds its transfer fast.

#[derive(Clone, Copy)]
pub(crate) struct Mark {
    /// Those of lower identifiers have answers.
    pub passed: u64,
    /// Those that have answers have no greater numbers.
    pub reached: u64,
    /// None has a greater number.
    pub most: u64,
}
