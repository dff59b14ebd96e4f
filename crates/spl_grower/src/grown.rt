/// The result of letting the trunk grow.
#[derive(Clone, Copy, Debug, PartialEq, Eq)]
pub enum Grown {
    /// There is one more node.
    Done,
    /// The node is not to be split.
    Unneeded,
    /// The parent has as many pivots as it can have.
    Full,
    /// The parent does not lead to the child.
    Moved,
    /// Another actor's latch was in the way.
    Busy,
}
