//! Calls over a session. Whatever a call answers, the next one may be made.
ghost use Rattle.std.specs.Prelude.{◌≡◌};
ghost use Rattle.spl_drive.specs.Going.{MayGoOn};

use spl_branch::Branch;
use spl_desk::{CallFault, Turns};
use spl_message::{Key, MergeLaw, Value};
use spl_pager::Pager;
use spl_port::Port;
use spl_session::{Session, Stopped};

/// A holder makes no more steps than this.
const MOST_TURNS: u64 = 1 << 40;

/// Puts a value for the key.
pub(crate) fn insert<T: Turns<Branch<P::Seal>>, P: Port, G: Pager, L: MergeLaw>(
    session: &mut Session<'_, T, P, G, L>,
    key: &Key,
    value: &Value,
) -> Result<u64, CallFault>
    requires { MayGoOn (T.means session.old.desk.turns) (T.saw session.old.desk.turns) (T.ready session.old.desk.turns)
        (L.rule session.old.desk.law.now) (L.ready session.old.desk.law.now) }
    ensures { MayGoOn (T.means session.new.desk.turns) (T.saw session.new.desk.turns) (T.ready session.new.desk.turns)
        (L.rule session.new.desk.law.now) (L.ready session.new.desk.law.now) }
{
    let turns = session.desk.turns.turns();
    if turns > MOST_TURNS {
        return Err(CallFault::Spent { turns });
    }
    session.insert(key, value)
}

/// Deletes the key.
pub(crate) fn delete<T: Turns<Branch<P::Seal>>, P: Port, G: Pager, L: MergeLaw>(
    session: &mut Session<'_, T, P, G, L>,
    key: &Key,
) -> Result<u64, CallFault>
    requires { MayGoOn (T.means session.old.desk.turns) (T.saw session.old.desk.turns) (T.ready session.old.desk.turns)
        (L.rule session.old.desk.law.now) (L.ready session.old.desk.law.now) }
    ensures { MayGoOn (T.means session.new.desk.turns) (T.saw session.new.desk.turns) (T.ready session.new.desk.turns)
        (L.rule session.new.desk.law.now) (L.ready session.new.desk.law.now) }
{
    let turns = session.desk.turns.turns();
    if turns > MOST_TURNS {
        return Err(CallFault::Spent { turns });
    }
    session.delete(key)
}

/// The value of the key.
pub(crate) fn lookup<T: Turns<Branch<P::Seal>>, P: Port, G: Pager, L: MergeLaw>(
    session: &mut Session<'_, T, P, G, L>,
    key: &Key,
) -> Result<Option<Value>, CallFault>
    requires { MayGoOn (T.means session.old.desk.turns) (T.saw session.old.desk.turns) (T.ready session.old.desk.turns)
        (L.rule session.old.desk.law.now) (L.ready session.old.desk.law.now) }
    ensures { MayGoOn (T.means session.new.desk.turns) (T.saw session.new.desk.turns) (T.ready session.new.desk.turns)
        (L.rule session.new.desk.law.now) (L.ready session.new.desk.law.now) }
{
    let turns = session.desk.turns.turns();
    if turns > MOST_TURNS {
        return Err(CallFault::Spent { turns });
    }
    match session.lookup(key) {
        Ok(found) => Ok(found.value),
        Err(stopped) => Err(stopped.fault),
    }
}
