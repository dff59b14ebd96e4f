use spl_message::Span;

/// A lookup, or a piece of a scan, on its way down the trunk.
#[derive(Clone, Copy, Debug, PartialEq, Eq)]
pub struct Descent {
    /// Its place in the history of all calls.
    pub place: u64,
    /// The keys that it still asks for: those from its start to the end of the part of the trunk that it has come to.
    pub span: Span,
    /// The node that it reads.
    pub node: u32,
}
