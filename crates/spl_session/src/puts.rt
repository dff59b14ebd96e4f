ghost use Rattle.std.specs.Prelude.{◌≡◌, ◌<◌, ◌^◌, IfOk, IfErr, OnOk, OnErr};
ghost use Rattle.spl_message.specs.declared.call.Call.TheVariants as call;
ghost use Rattle.spl_message.specs.declared.message.Message.TheVariants as message;
ghost use Rattle.spl_message.specs.History.{History};
ghost use Rattle.spl_desk.specs.Branches.{branch_kind};
ghost use Rattle.spl_desk.specs.Calls.{HasCalled, MadeCall, MadeFew, MadeNoCall, MayCall, NeverFell};
ghost use Rattle.spl_desk.specs.Causes.{HasCallCause};
ghost use Rattle.spl_session.specs.Writes.{message_of};

use crate::steps::{Progress, attempt_or_give_up};
use crate::way::make_way;
use crate::write::Write;
use spl_branch::Branch;
use spl_desk::{CallFault, Desk, Turns};
use spl_message::{Key, MergeLaw, Value};
use spl_pager::Pager;
use spl_port::Port;

/// Puts the message for the key, and returns its place in the history of all calls. A put that fails changes no key.
///
/// Room for one more frozen memtable is made only when four are frozen.
pub fn put<T: Turns<Branch<P::Seal>>, P: Port, G: Pager, L: MergeLaw>(
    desk: &mut Desk<'_, T, P, G, L>,
    key: &Key,
    write: Write<'_>,
) -> Result<u64, CallFault>
    requires turns { (T.means desk.old.turns).turns < 2 ^ 41 }
    requires ready { T.ready desk.old.turns }
    requires nothing { MayCall (T.means desk.old.turns) }
    requires seen { (history : History) × T.saw desk.old.turns history }
    requires law { L.rule desk.old.law.now ≡ (T.means desk.old.turns).rule }
    requires lawful { L.ready desk.old.law.now }
    ensures called { HasCalled (T.means desk.old.turns) (T.means desk.new.turns) }
    ensures ready { T.ready desk.new.turns }
    ensures placed { (history : History) → T.saw desk.old.turns history → IfOk result (MadeCall (branch_kind P.Seal.TELLS)
        (T.means desk.old.turns) history (T.means desk.new.turns) (T.saw desk.new.turns) (call.Put key.now (message_of write.entry))) }
    ensures failed { (history : History) → T.saw desk.old.turns history → OnErr result (MadeNoCall (branch_kind P.Seal.TELLS)
        (T.means desk.old.turns) history (T.means desk.new.turns) (T.saw desk.new.turns)) }
    ensures law { desk.new.law.now ≡ desk.old.law.now }
    ensures device { desk.new.port.ghost_name ≡ desk.old.port.ghost_name }
    ensures pager { desk.new.pager.now ≡ desk.old.pager.now }
    ensures port { NeverFell (P.counts desk.old.port.now) (P.counts desk.new.port.now) }
    ensures ok_few { OnOk result (MadeFew (T.means desk.old.turns) (T.means desk.new.turns) 0) }
    ensures err_few { OnErr result (MadeFew (T.means desk.old.turns) (T.means desk.new.turns) 1) }
    ensures cause { (history : History) → T.saw desk.old.turns history → IfErr result (HasCallCause (branch_kind P.Seal.TELLS)
        (T.means desk.old.turns) history (T.means desk.new.turns) (T.saw desk.new.turns)
        (P.counts desk.old.port.now) (P.counts desk.new.port.now)) }
{
    loop {
        match attempt_or_give_up(&mut desk.turns, key, &write)? {
            Progress::Placed { place } => return Ok(place),
            Progress::Again => {}
            Progress::Frozen => make_way(desk)?,
        }
    }
}

/// Puts a value for the key.
pub fn insert<T: Turns<Branch<P::Seal>>, P: Port, G: Pager, L: MergeLaw>(
    desk: &mut Desk<'_, T, P, G, L>,
    key: &Key,
    value: &Value,
) -> Result<u64, CallFault>
    requires turns { (T.means desk.old.turns).turns < 2 ^ 41 }
    requires ready { T.ready desk.old.turns }
    requires nothing { MayCall (T.means desk.old.turns) }
    requires seen { (history : History) × T.saw desk.old.turns history }
    requires law { L.rule desk.old.law.now ≡ (T.means desk.old.turns).rule }
    requires lawful { L.ready desk.old.law.now }
    ensures called { HasCalled (T.means desk.old.turns) (T.means desk.new.turns) }
    ensures ready { T.ready desk.new.turns }
    ensures placed { (history : History) → T.saw desk.old.turns history → IfOk result (MadeCall (branch_kind P.Seal.TELLS)
        (T.means desk.old.turns) history (T.means desk.new.turns) (T.saw desk.new.turns) (call.Put key.now (message.Insert value.now))) }
    ensures failed { (history : History) → T.saw desk.old.turns history → OnErr result (MadeNoCall (branch_kind P.Seal.TELLS)
        (T.means desk.old.turns) history (T.means desk.new.turns) (T.saw desk.new.turns)) }
    ensures law { desk.new.law.now ≡ desk.old.law.now }
    ensures device { desk.new.port.ghost_name ≡ desk.old.port.ghost_name }
    ensures pager { desk.new.pager.now ≡ desk.old.pager.now }
    ensures port { NeverFell (P.counts desk.old.port.now) (P.counts desk.new.port.now) }
    ensures ok_few { OnOk result (MadeFew (T.means desk.old.turns) (T.means desk.new.turns) 0) }
    ensures err_few { OnErr result (MadeFew (T.means desk.old.turns) (T.means desk.new.turns) 1) }
    ensures cause { (history : History) → T.saw desk.old.turns history → IfErr result (HasCallCause (branch_kind P.Seal.TELLS)
        (T.means desk.old.turns) history (T.means desk.new.turns) (T.saw desk.new.turns)
        (P.counts desk.old.port.now) (P.counts desk.new.port.now)) }
{
    put(desk, key, Write::Insert(value))
}

/// Deletes the key.
pub fn delete<T: Turns<Branch<P::Seal>>, P: Port, G: Pager, L: MergeLaw>(
    desk: &mut Desk<'_, T, P, G, L>,
    key: &Key,
) -> Result<u64, CallFault>
    requires turns { (T.means desk.old.turns).turns < 2 ^ 41 }
    requires ready { T.ready desk.old.turns }
    requires nothing { MayCall (T.means desk.old.turns) }
    requires seen { (history : History) × T.saw desk.old.turns history }
    requires law { L.rule desk.old.law.now ≡ (T.means desk.old.turns).rule }
    requires lawful { L.ready desk.old.law.now }
    ensures called { HasCalled (T.means desk.old.turns) (T.means desk.new.turns) }
    ensures ready { T.ready desk.new.turns }
    ensures placed { (history : History) → T.saw desk.old.turns history → IfOk result (MadeCall (branch_kind P.Seal.TELLS)
        (T.means desk.old.turns) history (T.means desk.new.turns) (T.saw desk.new.turns) (call.Put key.now message.Delete)) }
    ensures failed { (history : History) → T.saw desk.old.turns history → OnErr result (MadeNoCall (branch_kind P.Seal.TELLS)
        (T.means desk.old.turns) history (T.means desk.new.turns) (T.saw desk.new.turns)) }
    ensures law { desk.new.law.now ≡ desk.old.law.now }
    ensures device { desk.new.port.ghost_name ≡ desk.old.port.ghost_name }
    ensures pager { desk.new.pager.now ≡ desk.old.pager.now }
    ensures port { NeverFell (P.counts desk.old.port.now) (P.counts desk.new.port.now) }
    ensures ok_few { OnOk result (MadeFew (T.means desk.old.turns) (T.means desk.new.turns) 0) }
    ensures err_few { OnErr result (MadeFew (T.means desk.old.turns) (T.means desk.new.turns) 1) }
    ensures cause { (history : History) → T.saw desk.old.turns history → IfErr result (HasCallCause (branch_kind P.Seal.TELLS)
        (T.means desk.old.turns) history (T.means desk.new.turns) (T.saw desk.new.turns)
        (P.counts desk.old.port.now) (P.counts desk.new.port.now)) }
{
    put(desk, key, Write::Delete)
}

/// Merges the operand into the key's value.
pub fn update<T: Turns<Branch<P::Seal>>, P: Port, G: Pager, L: MergeLaw>(
    desk: &mut Desk<'_, T, P, G, L>,
    key: &Key,
    operand: &Value,
) -> Result<u64, CallFault>
    requires turns { (T.means desk.old.turns).turns < 2 ^ 41 }
    requires ready { T.ready desk.old.turns }
    requires nothing { MayCall (T.means desk.old.turns) }
    requires seen { (history : History) × T.saw desk.old.turns history }
    requires law { L.rule desk.old.law.now ≡ (T.means desk.old.turns).rule }
    requires lawful { L.ready desk.old.law.now }
    ensures called { HasCalled (T.means desk.old.turns) (T.means desk.new.turns) }
    ensures ready { T.ready desk.new.turns }
    ensures placed { (history : History) → T.saw desk.old.turns history → IfOk result (MadeCall (branch_kind P.Seal.TELLS)
        (T.means desk.old.turns) history (T.means desk.new.turns) (T.saw desk.new.turns) (call.Put key.now (message.Update operand.now))) }
    ensures failed { (history : History) → T.saw desk.old.turns history → OnErr result (MadeNoCall (branch_kind P.Seal.TELLS)
        (T.means desk.old.turns) history (T.means desk.new.turns) (T.saw desk.new.turns)) }
    ensures law { desk.new.law.now ≡ desk.old.law.now }
    ensures device { desk.new.port.ghost_name ≡ desk.old.port.ghost_name }
    ensures pager { desk.new.pager.now ≡ desk.old.pager.now }
    ensures port { NeverFell (P.counts desk.old.port.now) (P.counts desk.new.port.now) }
    ensures ok_few { OnOk result (MadeFew (T.means desk.old.turns) (T.means desk.new.turns) 0) }
    ensures err_few { OnErr result (MadeFew (T.means desk.old.turns) (T.means desk.new.turns) 1) }
    ensures cause { (history : History) → T.saw desk.old.turns history → IfErr result (HasCallCause (branch_kind P.Seal.TELLS)
        (T.means desk.old.turns) history (T.means desk.new.turns) (T.saw desk.new.turns)
        (P.counts desk.old.port.now) (P.counts desk.new.port.now)) }
{
    put(desk, key, Write::Update(operand))
}
