ghost use Rattle.spl_message.specs.Rule.{newest};

use crate::key::Key;
use crate::law::MergeLaw;
use crate::value::Value;
use spl_base::NoMemory;
use std::alloc::Global;

/// The law by which the newest operand is the value.
#[derive(Clone, Copy, Debug)]
pub struct Newest;

impl MergeLaw for Newest {
    ghost rule = { λ _. newest };

    fn apply(
        &self,
        _alloc: Global,
        _key: &Key,
        _old: Option<&Value>,
        operand: &Value,
    ) -> Result<Value, NoMemory> {
        operand.copy()
    }

    fn join(
        &self,
        _alloc: Global,
        _key: &Key,
        _older: &Value,
        newer: &Value,
    ) -> Result<Value, NoMemory> {
        newer.copy()
    }
}
