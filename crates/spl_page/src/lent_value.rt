ghost use Rattle.std.specs.Prelude.{◌≡◌, ◌≤◌, length, IfOk};

use spl_message::{NoMemory, Value};
use std::alloc::Global;

/// The bytes of a value, at most 512, borrowed.
#[derive(Clone, Copy, Debug)]
pub struct LentValue<'a> {
    bytes: &'a [u8],
    ghost short: { length bytes.now ≤ 512 },
}

impl<'a> LentValue<'a> {
    pub(crate) fn of(bytes: &'a [u8]) -> LentValue<'a>
        requires { length bytes.now ≤ 512 }
        ensures { result.bytes.now ≡ bytes.now }
    {
        LentValue { bytes }
    }

    /// The bytes.
    pub fn bytes(&self) -> &'a [u8]
        ensures value { result.now ≡ self.now.bytes.now }
        ensures short { length result.now ≤ 512 }
    {
        self.bytes
    }

    /// A value of these bytes.
    pub fn copy(&self, alloc: Global) -> Result<Value, NoMemory>
        ensures { IfOk result (λ value. value ≡ self.now.bytes.now) }
    {
        match Value::read(alloc, self.bytes) {
            Ok(value) => Ok(value),
            Err(_) => Err(NoMemory),
        }
    }
}
