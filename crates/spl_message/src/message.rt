ghost use Rattle.std.specs.Prelude.{◌≡◌, IfOk, IsOk};
ghost use Rattle.spl_message.specs.Message.{HoldsValue};

use crate::value::Value;
use spl_base::NoMemory;

/// What a write leaves for a key.
#[derive(Debug, PartialEq, Eq, Drop)]
pub enum Message {
    /// The key has this value from now on.
    Insert(Value),
    /// The key has no value from now on.
    Delete,
    /// The key has from now on what the merge law makes of its value, or of none, with this operand.
    Update(Value),
}

impl Message {
    /// An equal message in memory of its own. A delete takes none.
    pub fn copy(&self) -> Result<Message, NoMemory>
        ensures ok { IfOk result (λ message. message ≡ self.now) }
        ensures free { ¬ (HoldsValue self.now) → IsOk result }
    {
        match self {
            Message::Insert(value) => Ok(Message::Insert(value.copy()?)),
            Message::Delete => Ok(Message::Delete),
            Message::Update(operand) => Ok(Message::Update(operand.copy()?)),
        }
    }
}
