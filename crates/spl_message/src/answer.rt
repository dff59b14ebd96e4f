use crate::bound::Bound;
use crate::pairs::Pairs;
use crate::value::Value;

/// Why a call was stopped.
#[derive(Clone, Copy, Debug, PartialEq, Eq)]
pub enum Cause {
    /// The device failed.
    Fault,
    /// The device gave bytes that are not the page that was asked for.
    Damaged,
    /// No extent was free.
    Full,
    /// The trunk has as many nodes as it may have.
    Nodes,
    /// The session has made as many turns as it may make.
    Spent,
    /// Memory ran out.
    Memory,
}

/// What a call answers.
#[derive(Debug, PartialEq, Eq, Drop)]
pub enum Answer {
    /// A put is done.
    Done,
    /// The key has no value.
    Missing,
    /// The key's value.
    Value(Value),
    /// The keys that have a value, with their values, from the start of the span that was asked for up to this end,
    /// which is at most the span's end.
    Pairs { end: Option<Bound>, pairs: Pairs },
    /// The call was stopped.
    Stopped(Cause),
}
