ghost use Rattle.std.specs.Prelude.{◌≡◌, IfOk, IsOk};
ghost use Rattle.spl_message.specs.History.{CallHoldsValue};

use crate::key::Key;
use crate::message::Message;
use crate::span::Span;
use spl_base::NoMemory;

/// A call on the store.
#[derive(Debug, PartialEq, Eq, Drop)]
pub enum Call {
    /// Puts the message to the key.
    Put(Key, Message),
    /// Asks for the key's value.
    Look(Key),
    /// Asks for the keys of the span that have a value, or for those of a first part of it.
    Piece(Span),
}

impl Call {
    /// An equal call in memory of its own. Only a value takes memory: a delete, a lookup and a piece take none.
    pub fn copy(&self) -> Result<Call, NoMemory>
        ensures ok { IfOk result (λ call. call ≡ self.now) }
        ensures free { ¬ (CallHoldsValue self.now) → IsOk result }
    {
        match self {
            Call::Put(key, message) => Ok(Call::Put(*key, message.copy()?)),
            Call::Look(key) => Ok(Call::Look(*key)),
            Call::Piece(span) => Ok(Call::Piece(*span)),
        }
    }
}
