ghost use Rattle.std.specs.Prelude.{◌≡◌, ◌<◌, ◌≤◌, length, IfOk, IsOkUnless, nat_eq};
ghost use Rattle.std.specs.Cmp.{partial_equiv_from_equiv};
ghost use Rattle.std.specs.Cmp.Lexicographic.{pointwise, nat_list_eq_equiv};

use spl_base::NoMemory;
use std::alloc::{AllocError, Global};
use std::error::Error;
use std::fmt;
use std::marker::Model;

/// The greatest number of bytes of a value.
pub const VALUE_LIMIT: usize = 512;

/// A value: 0 to 512 bytes. A clause sees the list of the bytes.
#[derive(Debug, Drop)]
pub struct Value {
    bytes: Vec<u8>,
}

impl Model for Value {
    ghost use Rattle.std.specs.Prelude.{◌≤◌, ℕ, List, length};

    ghost Value = { List ℕ };

    ghost view = { λ v. v.bytes.items };

    ghost invariant = { λ v. length v.bytes.items ≤ 512 };
}

/// Why there is no value of some bytes.
#[derive(Clone, Copy, Debug, PartialEq, Eq)]
pub enum ValueFault {
    /// There are more than 512.
    Long { len: u64 },
    /// Memory ran out.
    NoMemory,
}

impl fmt::Display for ValueFault {
    fn fmt<W: fmt::Write>(&self, f: &mut fmt::Formatter<W>) -> fmt::Result {
        match self {
            ValueFault::Long { len } => {
                write!(f, "a value has at most 512 bytes, and here are {len}")
            }
            ValueFault::NoMemory => write!(f, "out of memory"),
        }
    }
}

impl Error for ValueFault {}

impl From<AllocError> for ValueFault {
    ghost use Rattle.std.specs.Prelude.{◌≡◌};
    ghost use Rattle.spl_message.specs.declared.value.ValueFault.TheVariants.{NoMemory as WantOfMemory};

    ghost from_gives = { λ _ e. e ≡ WantOfMemory };

    fn from(_e: AllocError) -> ValueFault {
        ValueFault::NoMemory
    }
}

impl Value {
    /// The value of these bytes, which are copied.
    pub fn read(alloc: Global, bytes: &[u8]) -> Result<Value, ValueFault>
        ensures ok { IfOk result (λ value. value ≡ bytes.now) }
        ensures long { 512 < length bytes.now → result ≡ Err (ValueFault.Long (length bytes.now)) }
        ensures fits { length bytes.now ≤ 512 → IsOkUnless result ValueFault.NoMemory }
    {
        let len = bytes.len();
        if len > VALUE_LIMIT {
            return Err(ValueFault::Long { len: len as u64 });
        }
        let bytes = Vec::from_slice(alloc, bytes)?;
        Ok(Value { bytes })
    }

    /// The bytes.
    pub fn bytes(&self) -> &[u8]
        ensures value { result.now ≡ self.now }
        ensures short { length self.now ≤ 512 }
    {
        self.bytes.as_slice()
    }

    /// An equal value in memory of its own.
    pub fn copy(&self) -> Result<Value, NoMemory>
        ensures ok { IfOk result (λ value. value ≡ self.now) }
    {
        let bytes = self.bytes.clone()?;
        Ok(Value { bytes })
    }
}

impl PartialEq for Value {
    ghost eq = { pointwise nat_eq };

    ghost laws = { partial_equiv_from_equiv nat_list_eq_equiv };

    fn eq(&self, other: &Value) -> bool {
        self.bytes() == other.bytes()
    }
}

impl Eq for Value {
    ghost laws = { nat_list_eq_equiv };
}
