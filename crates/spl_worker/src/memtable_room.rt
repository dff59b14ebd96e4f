//! Room for one more frozen memtable.
ghost use Rattle.std.specs.Prelude.{◌≡◌, ◌<◌, ◌^◌, IfErr, OnErr, OnOk};
ghost use Rattle.spl_message.specs.History.{History};
ghost use Rattle.spl_desk.specs.Branches.{branch_kind};
ghost use Rattle.spl_desk.specs.Calls.{HasSeen, MadeFew, MayCall, NeverFell};
ghost use Rattle.spl_desk.specs.Quiet.{HasWorkCause, IsQuiet, WasMade};
ghost use Rattle.spl_worker.specs.Rooms.{MakesWay};

use crate::make_room;
use crate::plan::ROOT;
use spl_branch::Branch;
use spl_desk::{CallFault, Desk, Turns};
use spl_message::MergeLaw;
use spl_packer::{Packed, pack};
use spl_pager::Pager;
use spl_port::Port;

/// Packs one frozen memtable into a branch that hangs at the root, and makes room there first if the root is full. It
/// also returns `Ok` if no frozen memtable waits to be packed.
pub fn make_memtable_room<T: Turns<Branch<P::Seal>>, P: Port, G: Pager, L: MergeLaw>(
    desk: &mut Desk<'_, T, P, G, L>,
) -> Result<(), CallFault>
    requires turns { (T.means desk.old.turns).turns < 2 ^ 41 }
    requires ready { T.ready desk.old.turns }
    requires seen { HasSeen (T.saw desk.old.turns) }
    requires nothing { MayCall (T.means desk.old.turns) }
    requires law { L.rule desk.old.law.now ≡ (T.means desk.old.turns).rule }
    requires lawful { L.ready desk.old.law.now }
    ensures quiet { IsQuiet (branch_kind P.Seal.TELLS) (T.means desk.old.turns) (T.saw desk.old.turns)
        (T.means desk.new.turns) (T.saw desk.new.turns) }
    ensures nothing { MayCall (T.means desk.new.turns) }
    ensures ready { T.ready desk.new.turns }
    ensures ok_few { OnOk result (MadeFew (T.means desk.old.turns) (T.means desk.new.turns) 0) }
    ensures err_few { OnErr result (MadeFew (T.means desk.old.turns) (T.means desk.new.turns) 1) }
    ensures left { OnOk result ((T.means desk.old.turns).turns < (T.means desk.new.turns).turns) }
    ensures law { desk.new.law.now ≡ desk.old.law.now }
    ensures pager { desk.new.pager.now ≡ desk.old.pager.now }
    ensures device { desk.new.port.ghost_name ≡ desk.old.port.ghost_name }
    ensures port { NeverFell (P.counts desk.old.port.now) (P.counts desk.new.port.now) }

    // A turn of this call hung the branch, or found no memtable that waits.
    ensures made { OnOk result ((history : History) → T.saw desk.old.turns history
        → WasMade (branch_kind P.Seal.TELLS) (T.means desk.old.turns) history
        (T.means desk.new.turns) (T.saw desk.new.turns) MakesWay) }
    ensures faults { OnOk result ((P.counts desk.new.port.now).faults ≡ (P.counts desk.old.port.now).faults) }
    ensures cause { IfErr result (HasWorkCause (branch_kind P.Seal.TELLS) (T.means desk.old.turns)
        (T.saw desk.old.turns) (T.means desk.new.turns) (T.saw desk.new.turns)
        (P.counts desk.old.port.now) (P.counts desk.new.port.now)) }
{
    'room: loop {
        match pack(desk)? {
            Packed::Done | Packed::Nothing => return Ok(()),
            Packed::NotOldest => {}
            Packed::NeedsFlush => make_room(desk, ROOT)?,
        }
    }
}
