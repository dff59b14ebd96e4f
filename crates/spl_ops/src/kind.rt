ghost use Rattle.spl_ops.specs.Rules.{rule_of};

use crate::capped::Capped;
use crate::number::{old_number, read_number, write_number};
use crate::text::{copy_greater, join_ends};
use spl_message::{Key, MergeLaw, NoMemory, Value};
use std::alloc::Global;

/// A law by its name.
#[derive(Clone, Copy, Debug, PartialEq, Eq)]
pub enum Kind {
    /// Adds the numbers. The sum wraps at 2^64.
    Add,
    /// Keeps the greater value by bytes. A proper prefix is less.
    Max,
    /// Appends the operand and keeps the last 512 bytes.
    Tail,
    /// Adds the numbers, up to this cap.
    Capped(u64),
}

impl MergeLaw for Kind {
    ghost rule = { rule_of };

    fn apply(
        &self,
        alloc: Global,
        key: &Key,
        old: Option<&Value>,
        operand: &Value,
    ) -> Result<Value, NoMemory> {
        match self {
            Kind::Add => {
                let sum = old_number(old).wrapping_add(read_number(operand.bytes()));
                write_number(alloc, sum)
            }
            Kind::Max => match old {
                Some(value) => copy_greater(value, operand),
                None => operand.copy(),
            },
            Kind::Tail => match old {
                Some(value) => join_ends(alloc, value.bytes(), operand.bytes()),
                None => operand.copy(),
            },
            Kind::Capped(cap) => Capped { cap: *cap }.apply(alloc, key, old, operand),
        }
    }

    fn join(
        &self,
        alloc: Global,
        key: &Key,
        older: &Value,
        newer: &Value,
    ) -> Result<Value, NoMemory> {
        match self {
            Kind::Add => {
                let sum = read_number(older.bytes()).wrapping_add(read_number(newer.bytes()));
                write_number(alloc, sum)
            }
            Kind::Max => copy_greater(older, newer),
            Kind::Tail => join_ends(alloc, older.bytes(), newer.bytes()),
            Kind::Capped(cap) => Capped { cap: *cap }.join(alloc, key, older, newer),
        }
    }
}
