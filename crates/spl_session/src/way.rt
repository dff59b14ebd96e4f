//! Room for one more frozen memtable.
ghost use Rattle.std.specs.Prelude.{◌≡◌, ◌<◌, ◌^◌, length, IfErr, OnOk, OnErr};
ghost use Rattle.spl_message.specs.History.{History};
ghost use Rattle.spl_desk.specs.Calls.{HasCalled, MadeFew, MadeNoCall, MayCall, NeverFell};
ghost use Rattle.spl_desk.specs.Branches.{branch_kind};
ghost use Rattle.spl_desk.specs.Causes.{HasCallCause};

use spl_branch::Branch;
use spl_desk::{CallFault, Desk, Turns};
use spl_message::MergeLaw;
use spl_pager::Pager;
use spl_port::Port;
use spl_worker::make_memtable_room;

/// Makes room when four memtables are frozen. It may return `Ok` without having made room.
pub(crate) fn make_way<T: Turns<Branch<P::Seal>>, P: Port, G: Pager, L: MergeLaw>(
    desk: &mut Desk<'_, T, P, G, L>,
) -> Result<(), CallFault>
    requires turns { (T.means desk.old.turns).turns < 2 ^ 41 }
    requires ready { T.ready desk.old.turns }
    requires nothing { MayCall (T.means desk.old.turns) }
    requires frozen { length (T.means desk.old.turns).at.tables.frozen ≡ 4 }
    requires seen { (history : History) × T.saw desk.old.turns history }
    requires law { L.rule desk.old.law.now ≡ (T.means desk.old.turns).rule }
    requires lawful { L.ready desk.old.law.now }
    ensures called { HasCalled (T.means desk.old.turns) (T.means desk.new.turns) }
    ensures ready { T.ready desk.new.turns }
    ensures no_call { (history : History) → T.saw desk.old.turns history
        → MadeNoCall (branch_kind P.Seal.TELLS) (T.means desk.old.turns) history (T.means desk.new.turns) (T.saw desk.new.turns) }
    ensures law { desk.new.law.now ≡ desk.old.law.now }
    ensures device { desk.new.port.ghost_name ≡ desk.old.port.ghost_name }
    ensures pager { desk.new.pager.now ≡ desk.old.pager.now }
    ensures port { NeverFell (P.counts desk.old.port.now) (P.counts desk.new.port.now) }
    ensures ok_few { OnOk result (MadeFew (T.means desk.old.turns) (T.means desk.new.turns) 0) }
    ensures err_few { OnErr result (MadeFew (T.means desk.old.turns) (T.means desk.new.turns) 1) }
    ensures cause { (history : History) → T.saw desk.old.turns history → IfErr result (HasCallCause
        (branch_kind P.Seal.TELLS) (T.means desk.old.turns) history (T.means desk.new.turns) (T.saw desk.new.turns)
        (P.counts desk.old.port.now) (P.counts desk.new.port.now)) }
{
    make_memtable_room(desk)
}
