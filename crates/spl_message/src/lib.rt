//! The words of the store: keys, values, the messages that writes leave for a key, the calls and what they answer.
//!
//! A history is the list of all calls in the order of their places. What a key holds at a place is one fold of the
//! messages that the calls above that place put to it (`specs/History.antt`), and every layer answers by that fold
//! (`specs/Answer.antt`). What an update makes of a value is the rule of a merge law (`specs/Rule.antt`), by which
//! several messages of a key become one (`combine`) and a last one becomes a value (`settle`). The layers below a call
//! hold tables of messages (`specs/Table.antt`), stored in order as entries (`specs/Entries.antt`). `Content` is the
//! trait of a table that is a branch.
#![tactic(auto)]

mod answer;
mod bound;
mod call;
mod content;
mod hash;
mod key;
mod law;
mod merge;
mod message;
mod newest;
mod pairs;
mod room;
mod span;
mod value;

pub use answer::{Answer, Cause};
pub use bound::Bound;
pub use call::Call;
pub use content::Content;
pub use hash::{HashedKey, fnv};
pub use key::{KEY_LIMIT, Key, KeyFault};
pub use law::MergeLaw;
pub use merge::{combine, combine_owned, settle};
pub use message::Message;
pub use newest::Newest;
pub use pairs::Pairs;
pub use span::Span;
pub use spl_base::NoMemory;
pub use value::{VALUE_LIMIT, Value, ValueFault};

#[cfg(test)]
mod tests;
