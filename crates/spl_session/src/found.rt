use spl_message::Value;

/// What a lookup found.
#[derive(Debug, Drop)]
pub struct Found {
    pub value: Option<Value>,
    /// The lookup's place in the history of all calls.
    pub place: u64,
}
