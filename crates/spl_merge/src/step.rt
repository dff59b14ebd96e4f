use spl_message::{Key, Message};

/// The result of a step.
#[derive(Debug, PartialEq, Eq, Drop)]
pub enum Step {
    /// The next entry of the merge.
    Entry(Key, Message),
    /// The merge has nothing for a key: it is outside the span, or has no value at the bottom.
    Dropped,
    /// Every stream has ended.
    Ended,
}
