use std::collections::LinkedList;

/// What a seat does at the moment.
pub enum Stage {
    Idle,
    Waits,
    Holds,
}

/// A seat's number, and the prefix of the record that it has seen. It exists in proofs alone.
pub struct Sight<E> {
    pub number: u32,
    pub seen: LinkedList<E>,
}

/// What a seat knows. It exists in proofs alone.
pub struct Known<E, F> {
    pub number: u32,
    pub seen: LinkedList<E>,
    /// How many seats it is: one more with each that was joined into it, and 0 once it was joined into another.
    pub seats: u64,
    /// How many turns these made.
    pub turns: u64,
    /// How many seats were made, in the first seat. Else 0.
    pub made: u64,
    pub fixed: Option<F>,
    pub stage: Stage,
    /// What the seats had seen that were joined into it.
    pub joined: LinkedList<Sight<E>>,
}
