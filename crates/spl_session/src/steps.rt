ghost use Rattle.std.specs.Prelude.{◌≡◌, ◌+◌, ◌<◌, ◌≤◌, ◌^◌, true, false, Ok, OnOk, OnErr, IfErr};
ghost use Rattle.spl_message.specs.History.{History};
ghost use Rattle.spl_message.specs.declared.call.Call.TheVariants as call;
ghost use Rattle.spl_state.specs.View.{branch_data};
ghost use Rattle.spl_desk.specs.Calls.{HasCalled, MadeFew, MadeNoCall, MayCall};
ghost use Rattle.spl_desk.specs.Holder.{kind_of};
ghost use Rattle.spl_down.specs.Descending.{HasTurnCause};
ghost use Rattle.spl_session.specs.Putting.{AfterTry, AfterAttempt, IsAllFrozen};
ghost use Rattle.spl_session.specs.Writes.{message_of};

use crate::write::Write;
use spl_base::NoMemory;
use spl_core::Step;
use spl_desk::{CallFault, Turns, take_turn};
use spl_down::abandon;
use spl_message::{Content, Key, Message};
use spl_state::Reply;

/// The result of one round of a put.
#[derive(Clone, Copy, Debug)]
pub(crate) enum Progress {
    /// The put has this place.
    Placed { place: u64 },
    /// The active memtable was full, and may have room now.
    Again,
    /// The active memtable is full, and four are frozen.
    Frozen,
}

/// Tries once to put the message. Returns its place, or `None` if the active memtable is full.
pub(crate) fn try_put<B: Content, T: Turns<B>>(
    turns: &mut T,
    key: &Key,
    message: Message,
) -> Result<Option<u64>, NoMemory>
    requires turns { (T.means turns.old).turns < 2 ^ 41 }
    requires ready { T.ready turns.old }
    requires nothing { MayCall (T.means turns.old) }
    requires seen { (history : History) × T.saw turns.old history }
    ensures called { HasCalled (T.means turns.old) (T.means turns.new) }
    ensures turn { (T.means turns.new).turns ≡ (T.means turns.old).turns + 1 }
    ensures ready { T.ready turns.new }
    ensures made { (history : History) → T.saw turns.old history → AfterTry (kind_of B.number (branch_data B.extents B.entries B.cuts B.table) B.TELLS)
        (T.means turns.old) history (T.means turns.new) (T.saw turns.new) (call.Put key.now message) result }
{
    match take_turn(turns, Step::Put { key: *key, message }) {
        Reply::Placed { place } => Ok(Some(place)),
        Reply::MemFull => Ok(None),
        Reply::NoMemory => Err(NoMemory),
        _ => unreachable!(),
    }
}

/// Tries once to freeze the active memtable. Returns `false` if four are frozen, and `true` also if the active one has
/// room.
pub(crate) fn try_rotate<B: Content, T: Turns<B>>(turns: &mut T) -> Result<bool, NoMemory>
    requires turns { (T.means turns.old).turns < 2 ^ 41 }
    requires ready { T.ready turns.old }
    requires nothing { MayCall (T.means turns.old) }
    requires seen { (history : History) × T.saw turns.old history }
    ensures called { HasCalled (T.means turns.old) (T.means turns.new) }
    ensures turn { (T.means turns.new).turns ≡ (T.means turns.old).turns + 1 }
    ensures ready { T.ready turns.new }
    ensures frozen { result ≡ Ok false → IsAllFrozen (T.means turns.new) }
    ensures no_call { (history : History) → T.saw turns.old history → MadeNoCall (kind_of B.number (branch_data B.extents B.entries B.cuts B.table) B.TELLS)
        (T.means turns.old) history (T.means turns.new) (T.saw turns.new) }
{
    match take_turn(turns, Step::Rotate) {
        Reply::Rotated | Reply::NotFull => Ok(true),
        Reply::FrozenFull => Ok(false),
        Reply::NoMemory => Err(NoMemory),
        _ => unreachable!(),
    }
}

/// Stops a call of a holder that has made as many steps as it may.
pub(crate) fn check_turns<B: Content, T: Turns<B>>(turns: &T) -> Result<(), CallFault>
    ensures ok { OnOk result ((T.means turns.now).turns < 2 ^ 40) }
    ensures err { IfErr result (HasTurnCause (T.means turns.now)) }
{
    let turns = turns.turns();
    if turns < 1 << 40 {
        Ok(())
    } else {
        Err(CallFault::Spent { turns })
    }
}

/// Tries once to put the message, and to freeze the active memtable if that is full.
fn attempt<B: Content, T: Turns<B>>(
    turns: &mut T,
    key: &Key,
    write: &Write<'_>,
) -> Result<Progress, CallFault>
    requires turns { (T.means turns.old).turns < 2 ^ 41 }
    requires ready { T.ready turns.old }
    requires nothing { MayCall (T.means turns.old) }
    requires seen { (history : History) × T.saw turns.old history }
    ensures called { HasCalled (T.means turns.old) (T.means turns.new) }
    ensures ready { T.ready turns.new }
    ensures made { (history : History) → T.saw turns.old history → AfterAttempt (kind_of B.number (branch_data B.extents B.entries B.cuts B.table) B.TELLS)
        (T.means turns.old) history (T.means turns.new) (T.saw turns.new) (call.Put key.now (message_of write.now)) result }
    ensures frozen { result ≡ Ok Progress.Frozen → IsAllFrozen (T.means turns.new) }
    ensures ok_turns { OnOk result ((T.means turns.old).turns < (T.means turns.new).turns) }
    ensures ok_few { OnOk result ((T.means turns.new).turns ≤ 2 ^ 40) }
    ensures err_few { OnErr result (MadeFew (T.means turns.old) (T.means turns.new) 0) }
    ensures cause { IfErr result (HasTurnCause (T.means turns.new)) }
{
    check_turns(turns)?;
    let message = write.message()?;
    if let Some(place) = try_put(turns, key, message)? {
        return Ok(Progress::Placed { place });
    }
    check_turns(turns)?;
    if try_rotate(turns)? {
        Ok(Progress::Again)
    } else {
        Ok(Progress::Frozen)
    }
}

/// Does the same, and gives up if it meets a fault.
pub(crate) fn attempt_or_give_up<B: Content, T: Turns<B>>(
    turns: &mut T,
    key: &Key,
    write: &Write<'_>,
) -> Result<Progress, CallFault>
    requires turns { (T.means turns.old).turns < 2 ^ 41 }
    requires ready { T.ready turns.old }
    requires nothing { MayCall (T.means turns.old) }
    requires seen { (history : History) × T.saw turns.old history }
    ensures called { HasCalled (T.means turns.old) (T.means turns.new) }
    ensures ready { T.ready turns.new }
    ensures made { (history : History) → T.saw turns.old history → AfterAttempt (kind_of B.number (branch_data B.extents B.entries B.cuts B.table) B.TELLS)
        (T.means turns.old) history (T.means turns.new) (T.saw turns.new) (call.Put key.now (message_of write.now)) result }
    ensures frozen { result ≡ Ok Progress.Frozen → IsAllFrozen (T.means turns.new) }
    ensures ok_turns { OnOk result ((T.means turns.old).turns < (T.means turns.new).turns) }
    ensures ok_few { OnOk result ((T.means turns.new).turns ≤ 2 ^ 40) }
    ensures err_few { OnErr result (MadeFew (T.means turns.old) (T.means turns.new) 1) }
    ensures cause { IfErr result (HasTurnCause (T.means turns.new)) }
{
    let outcome = attempt(turns, key, write);
    if outcome.is_err() {
        abandon(turns);
    }
    outcome
}
