ghost use Rattle.std.specs.Prelude.{◌≡◌, IfOk};
ghost use Rattle.std.specs.Option.{option_copied};
ghost use Rattle.spl_message.specs.Rule.{Rule};

use crate::key::Key;
use crate::value::Value;
use spl_base::NoMemory;
use std::alloc::Global;

/// A merge law: what the operand of an update makes of a key's value, and which one operand stands for two.
///
/// Its meaning is a rule, whose fields say that the two agree. A law that stores other people's code says by `ready`
/// that this code may be called and does what the rule says; every other law is always ready.
pub trait MergeLaw: Drop {
    ghost rule: { Self → Rule };

    ghost ready: { Self → Type 0 } = { λ _. Unit {0} };

    /// The value that the operand makes of the old one, or of none.
    fn apply(
        &self,
        alloc: Global,
        key: &Key,
        old: Option<&Value>,
        operand: &Value,
    ) -> Result<Value, NoMemory>
        requires { ready self.now }
        ensures { IfOk result (λ value. value ≡ (rule self.now).apply key.now (option_copied old.entry) operand.now) };

    /// The operand that stands for the two.
    fn join(
        &self,
        alloc: Global,
        key: &Key,
        older: &Value,
        newer: &Value,
    ) -> Result<Value, NoMemory>
        requires { ready self.now }
        ensures { IfOk result (λ value. value ≡ (rule self.now).join key.now older.now newer.now) };
}

/// A shared reference to a law is that law.
impl<L: MergeLaw> MergeLaw for &L {
    ghost rule = { λ law. L.rule law.now };

    ghost ready = { λ law. L.ready law.now };

    fn apply(
        &self,
        alloc: Global,
        key: &Key,
        old: Option<&Value>,
        operand: &Value,
    ) -> Result<Value, NoMemory> {
        (**self).apply(alloc, key, old, operand)
    }

    fn join(
        &self,
        alloc: Global,
        key: &Key,
        older: &Value,
        newer: &Value,
    ) -> Result<Value, NoMemory> {
        (**self).join(alloc, key, older, newer)
    }
}
