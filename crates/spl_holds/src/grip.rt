/// What an actor has on a node.
#[derive(Clone, Copy, Debug, PartialEq, Eq, Hash)]
pub enum Grip {
    /// Nothing.
    Free,
    /// It reads the node, beside other readers and a claim.
    Read,
    /// It reads the node beside readers, and it alone may come to write it.
    Claim,
    /// It alone reads the node, and may change it.
    Write,
}
