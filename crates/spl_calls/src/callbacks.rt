ghost use Rattle.std.specs.Prelude.{◌≡◌};
ghost use Rattle.spl_calls.specs.Calls.{JoinsBy, AppliesBy};

use spl_message::{Key, MergeLaw, NoMemory, Value};
use std::alloc::Global;

/// A law that folds operands by two closures, which answer as `law` would. Either may run out of memory.
#[derive(Drop)]
pub struct Callbacks<K, J, A> {
    law: K,
    join: J,
    apply: A,
}

impl<K, J, A> Callbacks<K, J, A>
where
    K: MergeLaw,
    J: Fn(Global, &Key, &Value, &Value) -> Result<Value, NoMemory> + Drop,
    A: Fn(Global, &Key, Option<&Value>, &Value) -> Result<Value, NoMemory> + Drop,
{
    /// The law of these closures. Both accept any key and operands, and answer what the rule of `law` says.
    pub fn new(law: K, join: J, apply: A) -> Callbacks<K, J, A>
        requires joins { J.IsAlwaysCallable join }
        requires join { JoinsBy (K.rule law) (J.post join) }
        requires applies { A.IsAlwaysCallable apply }
        requires apply { AppliesBy (K.rule law) (A.post apply) }
        ensures rule { ⟦<Callbacks<K, J, A> as MergeLaw>⟧.rule result ≡ K.rule law }
        ensures ready { ⟦<Callbacks<K, J, A> as MergeLaw>⟧.ready result }
    {
        Callbacks { law, join, apply }
    }
}

impl<K, J, A> MergeLaw for Callbacks<K, J, A>
where
    K: MergeLaw,
    J: Fn(Global, &Key, &Value, &Value) -> Result<Value, NoMemory> + Drop,
    A: Fn(Global, &Key, Option<&Value>, &Value) -> Result<Value, NoMemory> + Drop,
{
    ghost rule = { λ calls. K.rule calls.law };

    ghost ready = { λ calls.
        J.IsAlwaysCallable calls.join
        × A.IsAlwaysCallable calls.apply
        × JoinsBy (K.rule calls.law) (J.post calls.join)
        × AppliesBy (K.rule calls.law) (A.post calls.apply) };

    fn apply(
        &self,
        alloc: Global,
        key: &Key,
        old: Option<&Value>,
        operand: &Value,
    ) -> Result<Value, NoMemory> {
        (self.apply)(alloc, key, old, operand)
    }

    fn join(
        &self,
        alloc: Global,
        key: &Key,
        older: &Value,
        newer: &Value,
    ) -> Result<Value, NoMemory> {
        (self.join)(alloc, key, older, newer)
    }
}
