ghost use Rattle.std.specs.Prelude.{◌≡◌};
ghost use Rattle.spl_ops.specs.Rules.{capped};
ghost use Rattle.spl_ops.specs.Sums.{capped_sum};

use crate::number::{old_number, read_number, write_number};
use spl_message::{Key, MergeLaw, NoMemory, Value};
use std::alloc::Global;

/// The law of sums that stop at a cap. Where the sum is more, the value is the cap.
#[derive(Clone, Copy, Debug, PartialEq, Eq)]
pub struct Capped {
    /// The greatest sum.
    pub cap: u64,
}

impl Capped {
    /// The sum of the two, or the cap where that is less.
    fn sum(&self, number: u64, other: u64) -> u64
        ensures { result ≡ capped_sum self.now.cap number other }
    {
        number.saturating_add(other).min(self.cap)
    }
}

impl MergeLaw for Capped {
    ghost rule = { λ law. capped law.cap };

    fn apply(
        &self,
        alloc: Global,
        _key: &Key,
        old: Option<&Value>,
        operand: &Value,
    ) -> Result<Value, NoMemory> {
        let sum = self.sum(old_number(old), read_number(operand.bytes()));
        write_number(alloc, sum)
    }

    fn join(
        &self,
        alloc: Global,
        _key: &Key,
        older: &Value,
        newer: &Value,
    ) -> Result<Value, NoMemory> {
        let sum = self.sum(read_number(older.bytes()), read_number(newer.bytes()));
        write_number(alloc, sum)
    }
}
