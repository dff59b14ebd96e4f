ghost use Rattle.std.specs.Prelude.{◌≡◌, ◌≤◌, ◌++◌, length, IfOk};
ghost use Rattle.spl_ops.specs.Texts.{greater, end_of};

use spl_message::{NoMemory, VALUE_LIMIT, Value};
use std::alloc::Global;
use std::cmp::Ordering;

/// A copy of the greater value by bytes.
pub fn copy_greater(older: &Value, newer: &Value) -> Result<Value, NoMemory>
    ensures { IfOk result (λ value. value ≡ greater older.now newer.now) }
{
    if older.bytes().cmp(&newer.bytes()) == Ordering::Less {
        newer.copy()
    } else {
        older.copy()
    }
}

/// The last 512 bytes of the older bytes followed by the newer ones. They are put together on the stack.
pub fn join_ends(alloc: Global, older: &[u8], newer: &[u8]) -> Result<Value, NoMemory>
    requires older { length older.now ≤ 512 }
    requires newer { length newer.now ≤ 512 }
    ensures { IfOk result (λ value. value ≡ end_of (older.now ++ newer.now)) }
{
    let skip = (older.len() + newer.len()).saturating_sub(VALUE_LIMIT);
    let kept = &older[skip..];
    let cut = kept.len();
    let len = cut + newer.len();
    let mut room = [0; VALUE_LIMIT];
    room[..cut].copy_from_slice(kept);
    room[cut..len].copy_from_slice(newer);
    Value::read(alloc, &room[..len]).map_err(|_| NoMemory)
}
