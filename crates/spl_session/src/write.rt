ghost use Rattle.std.specs.Prelude.{◌≡◌, IfOk};
ghost use Rattle.spl_session.specs.Writes.{message_of};

use spl_base::NoMemory;
use spl_message::{Message, Value};

/// What a put writes for a key.
#[derive(Clone, Copy, Debug)]
pub enum Write<'a> {
    Insert(&'a Value),
    Delete,
    Update(&'a Value),
}

impl<'a> Write<'a> {
    /// The message, in memory of its own.
    pub(crate) fn message(&self) -> Result<Message, NoMemory>
        ensures { IfOk result (λ message. message ≡ message_of self.now) }
    {
        match self {
            Write::Insert(value) => Ok(Message::Insert(value.copy()?)),
            Write::Delete => Ok(Message::Delete),
            Write::Update(operand) => Ok(Message::Update(operand.copy()?)),
        }
    }
}
