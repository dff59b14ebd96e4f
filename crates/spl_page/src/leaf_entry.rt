use spl_message::{Key, Message};

/// A key of a leaf page, and its message.
#[derive(Debug, PartialEq, Eq, Drop)]
pub struct LeafEntry {
    pub key: Key,
    pub message: Message,
}
