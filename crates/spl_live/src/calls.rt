//! Calls over a desk, each of which leaves it so that the next one may be made.
ghost use Rattle.std.specs.Prelude.{◌≤◌, ◌^◌, OnOk};
ghost use Rattle.spl_session.specs.Calling.{MayAsk};

use spl_branch::Branch;
use spl_desk::{CallFault, Desk, Turns};
use spl_message::{Key, MergeLaw, Value};
use spl_pager::Pager;
use spl_port::Port;
use spl_range::{Piece, Pieces};
use spl_worker::Work;

/// A holder that made more steps is spent.
const MOST_TURNS: u64 = 1 << 40;

/// Whether the holder may be asked again.
fn may_go_on<T: Turns<Branch<P::Seal>>, P: Port, G: Pager, L: MergeLaw>(
    desk: &Desk<'_, T, P, G, L>,
) -> Result<(), CallFault>
    ensures { OnOk result ((T.means desk.now.turns).turns ≤ 2 ^ 40) }
{
    let turns = desk.turns.turns();
    if turns > MOST_TURNS {
        return Err(CallFault::Spent { turns });
    }
    Ok(())
}

/// Puts a value for the key.
pub fn insert<T: Turns<Branch<P::Seal>>, P: Port, G: Pager, L: MergeLaw>(
    desk: &mut Desk<'_, T, P, G, L>,
    key: &Key,
    value: &Value,
) -> Result<(), CallFault>
    requires { MayAsk (T.means desk.old.turns) (T.saw desk.old.turns) (T.ready desk.old.turns) (L.rule desk.old.law.now) (L.ready desk.old.law.now) }
    ensures { OnOk result (MayAsk (T.means desk.new.turns) (T.saw desk.new.turns) (T.ready desk.new.turns)
        (L.rule desk.new.law.now) (L.ready desk.new.law.now)) }
{
    spl_session::insert(desk, key, value)?;
    Ok(())
}

/// Deletes the key.
pub fn delete<T: Turns<Branch<P::Seal>>, P: Port, G: Pager, L: MergeLaw>(
    desk: &mut Desk<'_, T, P, G, L>,
    key: &Key,
) -> Result<(), CallFault>
    requires { MayAsk (T.means desk.old.turns) (T.saw desk.old.turns) (T.ready desk.old.turns) (L.rule desk.old.law.now) (L.ready desk.old.law.now) }
    ensures { OnOk result (MayAsk (T.means desk.new.turns) (T.saw desk.new.turns) (T.ready desk.new.turns)
        (L.rule desk.new.law.now) (L.ready desk.new.law.now)) }
{
    spl_session::delete(desk, key)?;
    Ok(())
}

/// The value of the key.
pub fn lookup<T: Turns<Branch<P::Seal>>, P: Port, G: Pager, L: MergeLaw>(
    desk: &mut Desk<'_, T, P, G, L>,
    key: &Key,
) -> Result<Option<Value>, CallFault>
    requires { MayAsk (T.means desk.old.turns) (T.saw desk.old.turns) (T.ready desk.old.turns) (L.rule desk.old.law.now) (L.ready desk.old.law.now) }
    ensures { OnOk result (MayAsk (T.means desk.new.turns) (T.saw desk.new.turns) (T.ready desk.new.turns)
        (L.rule desk.new.law.now) (L.ready desk.new.law.now)) }
{
    match spl_session::lookup(desk, key) {
        Ok(found) => {
            may_go_on(desk)?;
            Ok(found.value)
        }
        Err(stopped) => Err(stopped.fault),
    }
}

/// The next piece of the scan.
pub fn next<T: Turns<Branch<P::Seal>>, P: Port, G: Pager, L: MergeLaw>(
    desk: &mut Desk<'_, T, P, G, L>,
    pieces: &mut Pieces,
) -> Result<Option<Piece>, CallFault>
    requires { MayAsk (T.means desk.old.turns) (T.saw desk.old.turns) (T.ready desk.old.turns) (L.rule desk.old.law.now) (L.ready desk.old.law.now) }
    ensures { OnOk result (MayAsk (T.means desk.new.turns) (T.saw desk.new.turns) (T.ready desk.new.turns)
        (L.rule desk.new.law.now) (L.ready desk.new.law.now)) }
{
    match pieces.next(desk) {
        Ok(piece) => {
            may_go_on(desk)?;
            Ok(piece)
        }
        Err(stopped) => Err(stopped.fault),
    }
}

/// One piece of work.
pub fn work<T: Turns<Branch<P::Seal>>, P: Port, G: Pager, L: MergeLaw>(
    desk: &mut Desk<'_, T, P, G, L>,
) -> Result<Work, CallFault>
    requires { MayAsk (T.means desk.old.turns) (T.saw desk.old.turns) (T.ready desk.old.turns) (L.rule desk.old.law.now) (L.ready desk.old.law.now) }
    ensures { OnOk result (MayAsk (T.means desk.new.turns) (T.saw desk.new.turns) (T.ready desk.new.turns)
        (L.rule desk.new.law.now) (L.ready desk.new.law.now)) }
{
    spl_worker::work_once(desk)
}
